//! Tests of groups and of the lines that they give: whether their definitions say what was meant. It has no code of its own.
#![tactic(auto)]

#[cfg(test)]
mod groups;
