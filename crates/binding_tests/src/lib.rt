//! Tests of names, the star form and conjunctions: the query that a SELECT is bound to, and what refuses it. It has no code
//! of its own.
#![tactic(auto)]

#[cfg(test)]
mod bound_queries;
#[cfg(test)]
mod refusals;
#[cfg(test)]
mod tables;
