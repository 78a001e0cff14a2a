//! Tests of what no clause states, against the crates of steps, rows and runs.
#![tactic(auto)]

#[cfg(test)]
mod channels;
#[cfg(test)]
mod explorations;
#[cfg(test)]
mod faults;
#[cfg(test)]
mod fields;
#[cfg(test)]
mod interning;
#[cfg(test)]
mod leaves;
#[cfg(test)]
mod losses;
#[cfg(test)]
mod steps;
#[cfg(test)]
mod texts;
#[cfg(test)]
mod transfers;
#[cfg(test)]
mod verdicts;
#[cfg(test)]
mod worlds;
