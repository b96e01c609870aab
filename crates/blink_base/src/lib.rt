//! The small types that every crate stands on: words, lists, values, and why a statement is refused.
//!
//! [`Word`] and [`List`] are thin types over a boxed `String` and a `Vec` that contracts see as their bytes and their items.
//! A value has a kind. A kind says which texts say its values, how a value is kept, and how values are ordered.
#![tactic(auto)]

mod answer;
mod boxed;
mod copied;
mod dates;
pub mod examples;
mod hashed;
pub mod laws;
mod limits;
mod list;
mod numbers;
mod op;
mod refusal;
mod roomy;
mod schema;
mod test;
mod tree;
mod value;
mod word;

pub use answer::{Answer, Field};
pub use boxed::Boxed;
pub use copied::Copied;
pub use limits::{
    LONGEST_CSV, LONGEST_INPUT, LONGEST_TEXT, Limits, MOST_BLOCKS, MOST_DIGITS, MOST_OPEN,
    MOST_TABLES, NUMBER_BOUND,
};
pub use list::List;
pub use numbers::whole_number;
pub use op::Op;
pub use refusal::Refusal;
pub use roomy::Roomy;
pub use schema::{Column, Schema};
pub use test::Test;
pub use tree::Tree;
pub use value::{Kind, Row, Value, ValueFault};
pub use word::Word;
