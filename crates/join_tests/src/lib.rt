//! Tests of keys of dimensions and of their codes: what their contracts leave open. It has no code of its own.
#![tactic(auto)]

#[cfg(test)]
mod dimension;
#[cfg(test)]
mod joins;
