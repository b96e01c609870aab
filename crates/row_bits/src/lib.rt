//! The bits of words as truth values, and those of the rows of a page.
#![tactic(auto)]

mod page_bits;
mod words;

pub use page_bits::PageBits;
pub use words::{and_with, count_set, fill, is_set, next_clear, next_set, or_with, put};
