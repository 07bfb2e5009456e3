// The words that everything above shares: masks of options, a rule's questions, log lines, calls and refusals.
#![tactic(auto)]

pub mod call;
pub mod line;
pub mod lookup;
pub mod masks;
pub mod refusal;
pub mod scope;
