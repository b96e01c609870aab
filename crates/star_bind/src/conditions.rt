// Conditions on tables: how many conjunctions they have, and the conjunctions.
pub(crate) mod branch;
pub(crate) mod columns;
pub(crate) mod conjunctions;
pub(crate) mod copies;
pub(crate) mod count;
pub(crate) mod fold;
pub(crate) mod literals;
pub(crate) mod merged;
pub(crate) mod spread;
pub(crate) mod width;

pub use literals::literal_value;
