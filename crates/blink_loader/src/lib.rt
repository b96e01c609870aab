//! CSV texts as records, and what is read from them.
#![tactic(auto)]

mod batch;
mod column_count;
pub mod examples;
mod records;

pub use batch::{LoadFault, load};
pub use column_count::{RangeFault, range_count};
