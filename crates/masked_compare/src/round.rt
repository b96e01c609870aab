// The bounds that a word is compared with.

/// A low and a high bound for each field, each a word: a lane lies in the round where each of its codes lies from the low
/// to the high code of its field. Source: after Johnson et al., VLDB 2008.
#[derive(Debug, Clone, Copy)]
pub struct Round {
    pub low: u64,
    pub high: u64,
}
