// A book of rules that want unequal options.
#![tactic(auto)]

pub mod differ;
