//! The texts that are printed.
#![tactic(auto)]

mod answer;
mod changes;
pub mod examples;
mod layout;
mod lines;
mod refusals;
mod words;

pub use answer::answer_text;
pub use changes::{added_text, created_text, dropped_text, reorganized_text};
pub use layout::layout_text;
pub use lines::{CellLine, ClassLine, ColumnLine, LayoutLines};
pub use refusals::refusal_text;
