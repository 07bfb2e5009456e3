// What a sitting tells.
#![tactic(auto)]

pub mod told;
