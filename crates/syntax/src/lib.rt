//! The tree of a text: which lists of tokens are programs, and where the others go wrong.
#![tactic(auto)]

mod access;
mod cases;
mod classes;
mod contracts;
mod cursor;
mod expressions;
mod fault;
mod firsts;
mod fitted;
mod fronts;
mod items;
mod laws;
mod leads;
mod messages;
mod operators;
mod parsing;
mod plain;
mod statement_ends;
mod statements;
mod states;
mod structs;
mod types;
mod values;

pub use fault::SyntaxFault;
pub use firsts::{begins_expression, begins_statement, begins_value};
pub use laws::{one_tree_a_spelling, tokens_are_parsed};
pub use parsing::parse;
pub use tree::Tree;
