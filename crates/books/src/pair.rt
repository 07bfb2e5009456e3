// Two books as one: the second's rules are numbered after the first's.
ghost use Rattle.std.specs.Prelude.{◌≡◌, IfOk};
ghost use Rattle.books.specs.Pair.{pair_fault, pair_model, pair_reasons};
ghost use Rattle.terms.specs.Refusals.{told};

use crate::book::{Book, Outlook, ReasoningBook, Seat};
use terms::refusal::Refusal;
use terms::scope::{NO_SCOPE, Scope};

// Of two books of any kind, pairs too, both lent. Every pair that `new` makes has all the rules of the two;
// that no rule is above 63 is said once more in what a pair means, so that a pair needs no fact beside its books.
// Each call splits the rules at the first book's count by itself: a function that did it would be asked three unlike
// things of either book.
#[derive(Clone, Copy)]
pub struct Pair<'a, F, S> {
    first: &'a F,
    second: &'a S,
}

impl<'a, F: Book, S: Book> Pair<'a, F, S> {
    // Refused where there would be more than 64 rules.
    #[tactic(auto, using(crate::proofs::QuestionLaws::over, crate::proofs::QuestionLaws::not_over), unfolding(crate::specs::Pair::pair_fault))]
    pub fn new(first: &'a F, second: &'a S) -> Result<Pair<'a, F, S>, Refusal>
        ensures answer { told result ≡ pair_fault (F.Book.model first.now) (S.Book.model second.now) }
        ensures books { IfOk result (λ p. (p.first.now ≡ first.now) × (p.second.now ≡ second.now)) }
    {
        if first.rules().saturating_add(second.rules()) > 64 {
            return Err(Refusal::TooManyRules);
        }
        Ok(Pair { first, second })
    }
}

#[tactic(auto, using(crate::proofs::PairLaws::in_first, crate::proofs::PairLaws::in_second, crate::proofs::PairLaws::in_neither, crate::proofs::PairLaws::pair_lawful), unfolding(crate::specs::Pair::pair_model))]
impl<F: Book, S: Book> Book for Pair<'_, F, S> {
    ghost model = { λ b. pair_model (F.Book.model b.first.now) (S.Book.model b.second.now) };

    fn rules(&self) -> u8 {
        self.first
            .rules()
            .saturating_add(self.second.rules())
            .min(64)
    }

    fn scope(&self, rule: u8) -> Scope {
        if rule > 63 {
            return NO_SCOPE;
        }
        let count = self.first.rules();
        if rule < count {
            self.first.scope(rule)
        } else {
            self.second.scope(rule - count)
        }
    }

    fn supports(&self, seat: Seat, masks: [u32; 4]) -> bool {
        if seat.rule > 63 {
            return false;
        }
        let count = self.first.rules();
        if seat.rule < count {
            self.first.supports(seat, masks)
        } else {
            let rule = seat.rule - count;
            self.second.supports(Seat { rule, ..seat }, masks)
        }
    }

    fn lawful(&self) {
        self.first.lawful();
        self.second.lawful();
    }
}

#[tactic(auto, using(crate::proofs::PairLaws::reason_first, crate::proofs::PairLaws::reason_second, crate::proofs::PairLaws::reason_neither, crate::proofs::PairLaws::pair_reasonable))]
impl<F: ReasoningBook, S: ReasoningBook> ReasoningBook for Pair<'_, F, S> {
    ghost reasons = { λ b. pair_reasons (F.Book.model b.first.now).rules (F.ReasoningBook.reasons b.first.now) (S.ReasoningBook.reasons b.second.now) };

    fn reason(&self, seat: Seat, outlook: Outlook) -> [u32; 4] {
        if seat.rule > 63 {
            return [0; 4];
        }
        let count = self.first.rules();
        if seat.rule < count {
            self.first.reason(seat, outlook)
        } else {
            let rule = seat.rule - count;
            self.second.reason(Seat { rule, ..seat }, outlook)
        }
    }

    fn reasonable(&self) {
        self.first.reasonable();
        self.second.reasonable();
    }
}
