//! Tests of the rows of packed words that lie in rounds. It has no code of its own.
#![tactic(auto)]

#[cfg(test)]
mod rounds;
#[cfg(test)]
mod words;
