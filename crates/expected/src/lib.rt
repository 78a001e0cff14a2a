//! The kinds of tokens with which a text that is not a program could have continued.
#![tactic(auto)]

mod braces;
mod following;
mod groups;
mod laws;
mod wording;

pub use braces::open_brace;
pub use following::expected_kinds;
pub use groups::{GROUPS, Group};
pub use laws::{fault_is_within, items_and_groups, words_are_read_back};
pub use wording::{MAX_ITEMS, expectation, word_of};
