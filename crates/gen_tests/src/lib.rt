//! Tests of a demonstration: whether its definition says what was meant. It has no code of its own.
#![tactic(auto)]

#[cfg(test)]
mod files;
