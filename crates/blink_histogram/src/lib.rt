//! The distinct values of a column, numbered in the order of first sight, and how often each stands in it.
#![tactic(auto)]

mod digest;
pub mod examples;
mod interner;
mod numbered_column;
mod ranks;
mod recent;

pub use digest::Digest;
pub use interner::Interner;
pub use numbered_column::NumberedColumn;
