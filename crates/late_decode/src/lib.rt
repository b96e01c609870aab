//! Groups of values: their parts while they are merged, and the lines that they give.
#![tactic(auto)]

mod fields;
mod finish;
mod first_lines;
mod groups;
mod key;
pub mod laws;
mod lines;
mod order;
mod parts;
mod plan;
mod source;

pub use groups::Groups;
pub use parts::no_parts;
pub use plan::{Finish, Formula, GroupPlan, LineOrder, Measure, Part, Pick, Slot};
