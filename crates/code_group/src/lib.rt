//! Groups by code: within a cell by tuples of codes and of places of keys, decoded once a group, and merged by values.
//!
//! [`group_page`] adds the selected rows of a page to the groups of its cell, [`CellGroups::spill`] adds these to groups of
//! values when the cell is done, and [`group_rest`] adds a row that is in no cell. A group of a cell is found by arithmetic
//! where few tuples may come, and else by one look-up.
#![tactic(auto)]

mod cell_groups;
mod cell_row;
mod formula;
pub mod laws;
mod limits;
mod page_groups;
mod page_rows;
mod rest_groups;
mod rest_row;
mod row_parts;
mod slots;
mod spill;
mod tuple;
mod tuple_groups;

pub use cell_groups::CellGroups;
pub use limits::MOST_SLOTS;
pub use page_groups::group_page;
pub use rest_groups::group_rest;
