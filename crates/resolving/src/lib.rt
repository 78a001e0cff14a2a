//! From the methods of a tree to methods in which every name is a number.
#![tactic(auto)]

mod around;
mod brought;
mod calls;
mod cases;
mod counts;
mod exchanges;
mod fields;
mod given;
mod locals;
mod messages;
mod methods;
mod plain;
mod reads;
mod sends;
mod statements;
mod staying;
mod types;
mod values;
mod ways;

pub use methods::{ResolvedProgram, resolve_methods};
