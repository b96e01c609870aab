//! Fields side by side in a word. A shape says how the fields of one row lie in a lane of a 64-bit word, and compares all
//! fields of a word at once.
#![tactic(auto)]

mod compare;
pub mod examples;
mod round;
mod rows;
mod shape;

pub use round::Round;
pub use shape::Shape;
