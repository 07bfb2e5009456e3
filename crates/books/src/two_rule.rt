// A rule over two questions: it says which options of the two go together.
ghost use Rattle.std.specs.Prelude.{◌≡◌, ℕ, Bool, None, Option, not, refl, ◌==◌};
ghost use Rattle.books.specs.Plain.{no_scope};
ghost use Rattle.terms.specs.Refusals.{told};
ghost use Rattle.terms.specs.declared.refusal.Refusal.{Refusal};

use crate::questions::Ties;
use terms::refusal::Refusal;
use terms::scope::{NO_SCOPE, Scope};

pub trait TwoRule: Ties + Copy {
    // What stands for a rule that is not there.
    ghost NONE: { Self };

    ghost pairs: { Self → ℕ → ℕ → Bool };

    ghost fault: { Self → ℕ → Option Refusal };

    const NONE: Self;

    // Whether the option at position 0 and the option at position 1 go together.
    fn pairs(&self, low: u8, high: u8) -> bool
        ensures { result ≡ pairs self.now low high };

    // Refuses what the rule of that number says beside its questions.
    fn check(&self, rule: u8) -> Result<(), Refusal>
        ensures { told result ≡ fault self.now rule };

    // A rule that is not there ties nothing.
    ghost nothing: { Self.Ties.ties NONE ≡ no_scope };
}

// Two questions alone want unequal options.
impl TwoRule for Scope {
    ghost NONE = { no_scope };

    ghost pairs = { λ s a b. not (a == b) };

    ghost fault = { λ s r. None };

    const NONE: Scope = NO_SCOPE;

    fn pairs(&self, low: u8, high: u8) -> bool {
        low != high
    }

    fn check(&self, _rule: u8) -> Result<(), Refusal> {
        Ok(())
    }

    ghost nothing = { refl };
}
