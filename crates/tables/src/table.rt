// Rules that list what they allow, and the book that holds them.
ghost use Rattle.std.specs.Prelude.{◌≡◌, false, [], is_some, IfOk};
ghost use Rattle.terms.specs.Refusals.{told};
ghost use Rattle.tables.specs.Table.{table_fault, sound_run};

use crate::rows::sound_rows;
use books::questions::{Ties, rules_fault};
use terms::refusal::Refusal;
use terms::scope::Scope;

// The combinations that the `count` rows from `first` on spell are allowed, and no others.
#[derive(Clone, Copy)]
pub struct TableRule {
    pub scope: Scope,
    pub first: usize,
    pub count: usize,
}

impl Ties for TableRule {
    ghost ties = { λ t. t.scope };

    fn scope(&self) -> Scope {
        self.scope
    }
}

// All rules share one lent list of rows, so that a book copies and holds nothing: a rule's rows are a run of it.
#[derive(Clone, Copy)]
pub struct TableBook<'a> {
    pub(crate) rows: &'a [u32],
    pub(crate) rules: &'a [TableRule],
    ghost sound: { is_some (table_fault rows.now rules.now) ≡ false },
}

// Whether the rule's rows are there, and each is sound.
#[tactic(auto, using(std::proofs::lemmas::Bool::Decides::nat_tests), unfolding(crate::specs::Table::sound_run))]
fn sound_run(rows: &[u32], rule: TableRule) -> bool
    ensures { result ≡ sound_run rows.now rule }
{
    if rule.count > rows.len() || rule.first > rows.len() - rule.count {
        return false;
    }
    let end = rule.first + rule.count;
    sound_rows(&rows[rule.first..end], rule.scope.count)
}

impl<'a> TableBook<'a> {
    // A book without rules.
    #[tactic(auto, unfolding(crate::specs::Table::table_fault, crate::specs::Table::bad_rows, books::specs::Questions::rules_fault, books::specs::Questions::too_many, books::specs::Questions::misfit, books::specs::Questions::first_fault))]
    pub fn empty() -> TableBook<'a>
        ensures rows { result.rows.now ≡ [] }
        ensures rules { result.rules.now ≡ [] }
    {
        TableBook {
            rows: &[],
            rules: &[],
        }
    }

    // A book of these rules, unless they have a fault: the first is the refusal.
    pub fn new(rows: &'a [u32], rules: &'a [TableRule]) -> Result<TableBook<'a>, Refusal>
        ensures answer { told result ≡ table_fault rows.now rules.now }
        ensures rows { IfOk result (λ b. b.rows.now ≡ rows.now) }
        ensures rules { IfOk result (λ b. b.rules.now ≡ rules.now) }
    {
        rules_fault(rules, 1..=4)?;
        match rules.iter().position(|rule| !sound_run(rows, *rule)) {
            Some(rule) => Err(Refusal::BadRows { rule: rule as u8 }),
            None => Ok(TableBook { rows, rules }),
        }
    }
}
