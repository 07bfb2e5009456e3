// What the questions of a rule must be, whatever the kind of the rule.
ghost use Rattle.std.specs.Prelude.{◌≡◌};
ghost use Rattle.std.specs.Range.{range_inclusive_start, range_inclusive_end};
ghost use Rattle.books.specs.Questions.{fresh, fits, rules_fault};
ghost use Rattle.terms.specs.Refusals.{told};
ghost use Rattle.terms.specs.declared.scope.Scope.{Scope};

use std::ops::RangeInclusive;
use terms::masks::{has, with};
use terms::refusal::Refusal;
use terms::scope::Scope;

// A rule as it is handed in.
pub trait Ties {
    ghost ties: { Self → Scope };

    fn scope(&self) -> Scope
        ensures { result ≡ ties self.now };
}

impl Ties for Scope {
    ghost ties = { λ s. s };

    fn scope(&self) -> Scope {
        *self
    }
}

// Whether each question is below 16, and none is there twice.
fn fresh(questions: &[u8]) -> bool
    ensures { result ≡ fresh 0 questions.now }
{
    let mut seen = 0;
    for q in questions {
        if *q > 15 || has(seen, *q) {
            return false;
        }
        seen = with(seen, *q);
    }
    true
}

// Whether a rule that ties that many questions may tie these.
#[tactic(auto, using(crate::proofs::OwingLaws::counted, std::proofs::lemmas::Bool::Decides::nat_tests), unfolding(crate::specs::Questions::fits))]
fn fits(scope: Scope, counts: &RangeInclusive<u8>) -> bool
    ensures { result ≡ fits (range_inclusive_start counts.now) (range_inclusive_end counts.now) scope }
{
    let count = scope.count;
    let most = (*counts.end()).min(4);
    *counts.start() <= count && count <= most && fresh(&scope.questions[..usize::from(count)])
}

// Refuses more than 64 rules, or else the lowest that does not tie that many questions as it should.
pub fn rules_fault<R: Ties>(rules: &[R], counts: RangeInclusive<u8>) -> Result<(), Refusal>
    ensures { told result ≡ rules_fault R.ties (range_inclusive_start counts) (range_inclusive_end counts) rules.now }
{
    if rules.len() > 64 {
        return Err(Refusal::TooManyRules);
    }
    match rules.iter().position(|rule| !fits(rule.scope(), &counts)) {
        Some(rule) => Err(Refusal::BadQuestions { rule: rule as u8 }),
        None => Ok(()),
    }
}
