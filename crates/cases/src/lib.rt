// The hand-counted cases: those of a list by one proof, the others as tests.
#![tactic(auto)]

ghost use Rattle.cases.specs.Cases.{CasesStand};

// Every case of the list comes out as it was counted by hand.
pub fn cases_stand()
    ensures { CasesStand }
{}

#[cfg(test)]
mod tests;
