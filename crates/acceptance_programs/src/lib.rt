//! Tests of what no clause states, against the crates of names, of contracts, of methods in numbers and of their graphs.
#![tactic(auto)]

#[cfg(test)]
mod conditions;
#[cfg(test)]
mod faults;
#[cfg(test)]
mod lookups;
#[cfg(test)]
mod mistakes;
#[cfg(test)]
mod nearness;
#[cfg(test)]
mod numbers;
#[cfg(test)]
mod resolution;
#[cfg(test)]
mod sounds;
#[cfg(test)]
mod written_types;
