//! Conditions on one column as sets of codes.
#![tactic(auto)]

mod code_sets;
mod cuts;
pub mod laws;
mod leaf_bits;

pub use code_sets::ranges;
