//! Tests of banks: rows that are pushed into a pool, and read back. It has no code of its own.
#![tactic(auto)]

#[cfg(test)]
mod rows;
