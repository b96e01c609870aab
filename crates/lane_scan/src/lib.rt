//! Which rows of packed words lie in one of some rounds of bounds, four words at a time or row by row.
#![tactic(auto)]

pub mod examples;
mod fours;
mod parts;
mod scans;
mod single;
mod tops;

pub use masked_compare::Round;
pub use scans::{scan, scan_plain};
