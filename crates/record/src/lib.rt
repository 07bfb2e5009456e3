// The plain record of a sheet: the problem, what is crossed, and the log of why.
#![tactic(auto)]

pub mod calls;
pub mod docket;
pub mod problem;
pub mod readers;
pub mod state;
