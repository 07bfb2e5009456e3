// The lines of a text that say something, and their words.
#![tactic(auto)]

pub mod words;
