// The numbers and the verbs that a sitting is written in.
#![tactic(auto)]

pub mod numbers;
pub mod verb;
