// A book of rules that want a distance between two options.
#![tactic(auto)]

pub mod gap;
