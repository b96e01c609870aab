//! The tables by name, the statements that change them, and the queries over them.
//!
//! An [`Engine`] keeps, for each table, its name and the image of its rows, and no list of the rows that it accepted. The
//! definitions have that list: each call is the step of its statement on the tables with their lists, and keeps the images
//! standing for them.
#![tactic(auto)]

mod batch;
mod catalog;
mod columns;
mod describe;
mod engine;
pub mod examples;
mod fault;
mod growth;
mod inserted_rows;
mod select;
mod table;

pub use engine::Engine;
pub use fault::EngineError;
pub use growth::Growth;
pub use table::Table;
