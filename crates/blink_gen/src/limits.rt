// The limits of a demonstration.

/// The greatest seed. Source: this project's own.
pub const MOST_SEED: u32 = 2_147_483_647;

/// How many orders there may be. Source: this project's own.
pub const MOST_DEMO_ROWS: u32 = 1_000_000;

// How many months there are.
pub(crate) const MONTHS: u32 = 84;

// How many customers there are.
pub(crate) const CUSTOMERS: u32 = 200;

// How many parts there are.
pub(crate) const PARTS: u32 = 100;
