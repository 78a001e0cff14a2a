//! Tests of what no clause states, against the crates from the bytes of a text to its tree.
#![tactic(auto)]

#[cfg(test)]
mod faults;
#[cfg(test)]
mod lexing;
#[cfg(test)]
mod parsing;
#[cfg(test)]
mod trees;
