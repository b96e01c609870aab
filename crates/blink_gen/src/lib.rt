//! The script and the files of a demonstration, made from a seed and a number of rows.
//!
//! [`script`] makes four tables, loads them and asks eight queries; [`files`] are the files that it loads, in memory.
#![tactic(auto)]

mod customers;
mod demo_shelf;
mod demo_text;
pub mod examples;
mod fields;
mod generator;
mod limits;
mod months;
mod order;
mod order_list;
mod parts;

pub use demo_shelf::files;
pub use demo_text::script;
pub use limits::{MOST_DEMO_ROWS, MOST_SEED};
