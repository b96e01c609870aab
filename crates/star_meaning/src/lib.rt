//! What a query means, on lists of rows: the definitions that a reader of the program's promise reads first.
//!
//! There is no code here but empty functions whose contracts are laws and worked examples. No class, code, page or index is
//! named: an answer is said in the words of ISO/IEC 9075, by rows alone.
#![tactic(auto)]

pub mod examples;
pub mod laws;
