// How masks, overviews and log lines are written.
#![tactic(auto)]

pub mod logged;
pub mod options;
pub mod overview;
