// The limit of a query.

/// How many conjunctions the condition on a table may have. Source: this project's own.
pub const MOST_CONJUNCTIONS: usize = 64;
