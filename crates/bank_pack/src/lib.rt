//! Banks of packed codes. A plan says which columns of a cell share a word, and a bank is a list of code rows in blocks of a
//! pool.
#![tactic(auto)]

mod bank;
pub mod examples;
pub mod laws;
mod plan;
mod planned_bank;
mod push;

pub use bank::Bank;
pub use plan::BankPlan;
