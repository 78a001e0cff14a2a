//! Bytes, places, tokens, and the codes and texts of findings.
#![tactic(auto)]

mod brackets;
mod comments;
mod fault;
mod finding;
mod kind;
mod kinds;
pub mod laws;
mod lexer;
mod numbers;
mod pieces;
mod place;
mod symbols;
pub mod texts;
mod token;
mod words;

pub use fault::{Memory, TextFault};
pub use finding::{Code, Finding, compare};
pub use kind::Kind;
pub use kinds::{ALL_KINDS, text_of};
pub use lexer::{MAX_TEXT, lex};
pub use place::Place;
pub use texts::finding_of;
pub use token::{Span, Token, Tokens};
