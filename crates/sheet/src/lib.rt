// Sheets over a rule book: what is placed and picked, what settling crosses, and what stands.
#![tactic(auto)]

pub mod calls;
pub mod settle;
pub mod sheet;
