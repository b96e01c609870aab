//! Tests of codes, of banks and of images: what their contracts leave open. It has no code of its own.
#![tactic(auto)]

#[cfg(test)]
mod banks;
#[cfg(test)]
mod cells;
#[cfg(test)]
mod codes;
#[cfg(test)]
mod counters;
#[cfg(test)]
mod counts;
#[cfg(test)]
mod divisions;
