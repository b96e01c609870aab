//! Tests of the region of packed words: what its contract leaves open. It has no code of its own.
#![tactic(auto)]

#[cfg(test)]
mod blocks;
