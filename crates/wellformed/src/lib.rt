//! The methods of a program, resolved and well formed.
#![tactic(auto)]

pub mod laws;
mod methods;

pub use methods::well_formed_methods;
