//! Tests of the tables by name and of the program: what their contracts leave open. It has no code of its own.
#![tactic(auto)]

#[cfg(test)]
mod demo;
#[cfg(test)]
mod engine;
#[cfg(test)]
mod queries;
#[cfg(test)]
mod refused_queries;
#[cfg(test)]
mod run;
#[cfg(test)]
mod star_queries;
