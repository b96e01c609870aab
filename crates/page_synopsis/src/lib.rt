//! Sets of codes: a bit per code, or few ranges.
#![tactic(auto)]

mod code_bits;
pub mod examples;
pub mod laws;
mod limits;
mod narrow;
mod ranges;

pub use code_bits::CodeBits;
pub use limits::MOST_RUNS;
pub use narrow::{Narrow, Range};
pub use ranges::Ranges;
