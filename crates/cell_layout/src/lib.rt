//! The image of a table: its rows as codes in cells.
//!
//! Each column has classes of values (`column_classes` finds them). A row whose values all have a class stands in the cell of
//! its class numbers, as a code a column; any other row stands in rest, as values. [`Image::build`] and [`Image::relaid`] lay
//! rows out anew, [`Image::append`] adds rows to the standing layout, and [`Image::row`] reads one.
//!
//! Contracts see an [`Image`] as a table image: the schema, each column's classes, the cells with their rows of codes, and
//! rest. Cells are named by their index, in the order of their class numbers.
#![tactic(auto)]

mod cell;
mod cells;
mod duplicate_keys;
pub mod examples;
mod fault;
mod image;
pub mod laws;
mod row_codes;

pub use cell::Cell;
pub use fault::LayoutError;
pub use image::Image;
