// The calls on a sheet as values, and what they answer.
#![tactic(auto)]

pub mod answer;
pub mod make;
