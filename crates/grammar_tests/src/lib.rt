//! Tests of the grammar: what the contracts of the parser leave open. It has no code of its own.
#![tactic(auto)]

#[cfg(test)]
mod select;
#[cfg(test)]
mod sql;
