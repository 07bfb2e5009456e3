// A book of rules over two questions, whatever the rules.
ghost use Rattle.std.specs.Prelude.{◌≡◌, false, [], ⊤, is_some, IfOk, slice_index_or};
ghost use Rattle.terms.specs.Refusals.{told};
ghost use Rattle.books.specs.Twos.{beside, some_below, kept_below, two_fault, rules_model, rules_reasons};

use crate::book::{Book, Outlook, ReasoningBook, Seat};
use crate::owing::owed;
use crate::questions::rules_fault;
use crate::two_rule::TwoRule;
use std::alloc::AllocError;
use terms::lookup::item_or;
use terms::masks::{has, with};
use terms::refusal::Refusal;
use terms::scope::Scope;

// Rules without fault.
pub struct TwoBook<'a, R: TwoRule> {
    rules: &'a [R],
    ghost sound: { is_some (two_fault R.Ties.ties R.TwoRule.fault rules.now) ≡ false },
}

// Copied by hand, since no derive takes a ghost field beside a type parameter.
impl<R: TwoRule> Copy for TwoBook<'_, R> {}

impl<R: TwoRule> Clone for TwoBook<'_, R> {
    ghost is_clone = { λ b c. c ≡ b };

    ghost is_infallible = { λ _. ⊤ };

    fn clone(&self) -> Result<Self, AllocError> {
        Ok(*self)
    }
}

impl<'a, R: TwoRule> TwoBook<'a, R> {
    // A book without rules.
    #[tactic(auto, unfolding(crate::specs::Questions::rules_fault, crate::specs::Questions::too_many, crate::specs::Questions::misfit, crate::specs::Questions::first_fault))]
    pub fn empty() -> TwoBook<'a, R>
        ensures { result.rules.now ≡ [] }
    {
        TwoBook { rules: &[] }
    }

    // A book of these rules, unless they have a fault: the first is the refusal.
    pub fn new(rules: &'a [R]) -> Result<TwoBook<'a, R>, Refusal>
        ensures answer { told result ≡ two_fault R.Ties.ties R.TwoRule.fault rules.now }
        ensures book { IfOk result (λ b. b.rules.now ≡ rules.now) }
    {
        rules_fault(rules, 2..=2)?;
        for (number, rule) in rules.iter().enumerate() {
            rule.check(number as u8)?;
        }
        Ok(TwoBook { rules })
    }

    // The rule of that number, or the one that stands for a rule that is not there.
    fn rule_at(&self, rule: u8) -> R
        ensures { result ≡ slice_index_or self.now.rules.now rule R.NONE }
    {
        item_or(self.rules, rule, R::NONE)
    }
}

// Whether the option of the seat goes with x at the other position.
fn beside<R: TwoRule>(rule: &R, seat: Seat, x: u8) -> bool
    ensures { result ≡ beside (R.pairs rule.now) seat.position seat.option x }
{
    if seat.position == 0 {
        rule.pairs(seat.option, x)
    } else {
        rule.pairs(x, seat.option)
    }
}

// Whether the mask holds an option that goes with that of the seat. Which options go with it is asked first: along the
// options it turns once or twice, where a mask may turn at each.
fn has_partner<R: TwoRule>(rule: &R, seat: Seat, mask: u32) -> bool
    ensures { result ≡ some_below (beside (R.pairs rule.now) seat.position seat.option) 32 mask }
{
    (0..32u8).any(|x| beside(rule, seat, x) && has(mask, x))
}

// The options of the mask that go with that of the seat. A loop over the options: what `filter` and `fold` do to a mask
// would have to be proved of lists first.
#[tactic(auto, using(crate::proofs::TwoLaws::kept_none, crate::proofs::TwoLaws::kept_more, crate::proofs::TwoLaws::kept_same))]
fn partners<R: TwoRule>(rule: &R, seat: Seat, mask: u32) -> u32
    ensures { result ≡ kept_below (beside (R.pairs rule.now) seat.position seat.option) 32 mask }
{
    let mut partners = 0;
    for x in 0..32u8 {
        if has(mask, x) && beside(rule, seat, x) {
            partners = with(partners, x);
        }
    }
    partners
}

#[tactic(auto, using(crate::proofs::TwoLaws::scope_in, crate::proofs::TwoLaws::rules_few, std::proofs::lemmas::Bool::Decides::nat_tests), unfolding(crate::specs::Twos::two_model))]
impl<R: TwoRule> Book for TwoBook<'_, R> {
    ghost model = { λ b. rules_model R.Ties.ties R.TwoRule.pairs R.TwoRule.NONE b.rules.now };

    fn rules(&self) -> u8 {
        self.rules.len() as u8
    }

    fn scope(&self, rule: u8) -> Scope {
        self.rule_at(rule).scope()
    }

    fn supports(&self, seat: Seat, masks: [u32; 4]) -> bool {
        if usize::from(seat.rule) >= self.rules.len() || seat.option > 31 {
            return false;
        }
        let rule = self.rule_at(seat.rule);
        match seat.position {
            0 => has_partner(&rule, seat, masks[1]),
            1 => has_partner(&rule, seat, masks[0]),
            _ => false,
        }
    }

    #[tactic(auto, using(crate::proofs::TwoLaws::rules_lawful))]
    fn lawful(&self) {}
}

#[tactic(auto, using(crate::proofs::TwoLaws::reason_owed, crate::proofs::TwoLaws::reason_not_owed, crate::proofs::TwoLaws::rules_owed, crate::proofs::TwoLaws::rules_reasonable))]
impl<R: TwoRule> ReasoningBook for TwoBook<'_, R> {
    ghost reasons = { λ b. rules_reasons R.Ties.ties R.TwoRule.pairs R.TwoRule.NONE b.rules.now };

    fn reason(&self, seat: Seat, outlook: Outlook) -> [u32; 4] {
        if !owed(self, seat, outlook) {
            return [0; 4];
        }
        let rule = self.rule_at(seat.rule);
        if seat.position == 0 {
            [0, partners(&rule, seat, outlook.declared[1]), 0, 0]
        } else {
            [partners(&rule, seat, outlook.declared[0]), 0, 0, 0]
        }
    }

    fn reasonable(&self) {}
}
