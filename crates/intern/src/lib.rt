//! Rows as words that threads share: each row has one id, which names it for good.
#![tactic(auto)]

mod codes;
mod fault;
mod interning;
pub mod laws;
mod layout;
mod row_table;
mod seat;
mod seats;
mod steps;
mod table;
mod token;

pub use codes::{code_of, leaf_at};
pub use fault::{Far, InternFault, InternNew};
pub use layout::{MOST_LOOKS, MOST_SLOTS, word_of};
pub use row_table::Rows;
pub use seat::Seat;
pub use token::Token;
