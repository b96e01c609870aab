//! Tests of the pages of images: which rows conjunctions select. It has no code of its own.
#![tactic(auto)]

#[cfg(test)]
mod conjunctions;
