//! Tests of the bits of a page, of sets of codes and of conditions as sets of codes. It has no code of its own.
#![tactic(auto)]

#[cfg(test)]
mod code_sets;
#[cfg(test)]
mod conditions;
#[cfg(test)]
mod page_bits;
