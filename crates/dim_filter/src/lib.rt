//! Key sets of dimensions, with the values that are wanted beside each key.
#![tactic(auto)]

pub mod examples;
mod page;
mod rest;
mod row_values;

pub use page::collect;
pub use rest::collect_rest;
