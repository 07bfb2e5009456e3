// From the lines of a sitting to its commands.
#![tactic(auto)]

pub mod command;
pub mod fault;
pub mod numbers;
pub mod parse;
pub mod scopes;
