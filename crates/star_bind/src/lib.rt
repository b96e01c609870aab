//! What a SELECT means over the tables that are there: names as places, the star form, and conditions as conjunctions.
//!
//! [`bind`] answers the query that a SELECT is, with its names resolved, or its first refusal. The laws on its conjunctions
//! and its star joins stand in [`laws`].
#![tactic(auto)]

mod binding;
mod catalog;
mod checks;
mod conditions;
pub mod examples;
mod fault;
pub mod laws;
mod limits;
mod names;
mod query;
mod star;

pub use binding::bind;
pub use catalog::Catalog;
pub use conditions::literal_value;
pub use fault::BindFault;
pub use limits::MOST_CONJUNCTIONS;
pub use query::{BoundExpr, BoundItem, BoundOrder, ColumnRef, ColumnTest, Conjunction, Query, Tie};
