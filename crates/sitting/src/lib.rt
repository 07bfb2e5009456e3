// A sitting: a book of rules, a sheet opened on it and the calls made, read as text and answered as text.
#![tactic(auto)]

mod calling;
mod closing;
mod opening;
pub mod run;
