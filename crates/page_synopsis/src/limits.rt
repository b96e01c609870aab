// How many runs a narrow set may have.

/// How many maximal runs of successive codes a set may have that is compared as ranges. Source: this project's own.
pub const MOST_RUNS: usize = 8;
