// What a book of rules is, what the books of every kind share, and two books as one.
#![tactic(auto)]

pub mod book;
pub mod owing;
pub mod pair;
pub mod questions;
pub mod two_book;
pub mod two_rule;
