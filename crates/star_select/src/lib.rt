//! What a bound query answers over its tables and over their images: by key sets, by groups, and by codes.
//!
//! [`answer_query`] answers a bound query over the images of its tables; the laws that it rests on stand in [`laws`].
#![tactic(auto)]

mod cell_tests;
mod code_tests;
mod dimension_cells;
mod dimension_keys;
mod dimension_rest;
pub mod examples;
mod fact;
mod fact_groups;
mod fact_page;
mod fact_tests;
pub mod laws;
mod picks;
mod query_answer;
mod query_finish;
mod query_plan;
mod row_tests;
mod tied_codes;

pub use query_answer::answer_query;
