// A book of rules that list what they allow.
#![tactic(auto)]

pub mod book;
mod rows;
pub mod table;
