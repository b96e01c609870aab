//! The program, over a source, a sink and a store that are handed in.
#![tactic(auto)]

mod arguments;
pub mod examples;
pub mod laws;
mod output;
mod script;
mod statements;
mod top_call;

pub use top_call::{Status, run};
