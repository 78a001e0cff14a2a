//! What the statements of a program do: a machine over statements, and that it runs as the machine over graphs does.
#![tactic(auto)]

pub mod laws;
