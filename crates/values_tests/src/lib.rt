//! Tests of values, of texts and of the outside: what their contracts leave open. It has no code of its own.
#![tactic(auto)]

#[cfg(test)]
mod answers;
#[cfg(test)]
mod base;
#[cfg(test)]
mod edge;
#[cfg(test)]
mod lex;
#[cfg(test)]
mod loader;
#[cfg(test)]
mod report;
