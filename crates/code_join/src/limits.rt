// How many keys there may be.

/// How many keys a dimension may give, so that their places are 32-bit numbers. Source: this project's own.
pub const MOST_KEYS: u64 = 4_294_967_296;
