// The rules gathered for a whole book, of every kind, and their loading.
#![tactic(auto)]

pub mod ledger;
