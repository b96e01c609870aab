//! The classes of a table's columns: each column's values are counted and ranked by how often they come, the best division
//! of the ranks is found, at most three columns get it, and each column's classes become a dictionary.
//!
//! [`column_codes`] is the one call that a layout makes: a dictionary a column, which contracts see as lists of classes, and
//! a [`CodedColumn`] a column, which has the class and the code of each row's value. [`digest_column`] and
//! [`number_column`] number the values of one column, for who looks for keys.
#![tactic(auto)]

mod class;
mod coded_column;
mod column;
mod column_stats;
mod dicts;
pub mod laws;

pub use coded_column::CodedColumn;
pub use column::{digest_column, number_column};
pub use dicts::{ColumnCodes, column_codes};
