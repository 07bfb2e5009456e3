// The rules gathered for a book, each kind in the order written.
ghost use Rattle.std.specs.Prelude.{◌≡◌, [], ◌∷◌, ◌++◌, length, is_ok, if◌then◌else◌, vec_len, Ok, IfOk, OnOk};
ghost use Rattle.std.specs.Option.{option_map};
ghost use Rattle.terms.specs.Refusals.{told};
ghost use Rattle.ledger.specs.Ledgers.{renumber, ledger_fault};

use books::book::Book;
use differs::differ::DifferBook;
use gaps::gap::{GapBook, GapRule};
use std::alloc::{AllocError, Global};
use tables::table::{TableBook, TableRule};
use terms::refusal::Refusal;
use terms::scope::Scope;

// A table's rows are a run of the one list that its book is lent.
#[derive(Drop)]
pub struct Ledger {
    rows: Vec<u32>,
    tables: Vec<TableRule>,
    gaps: Vec<GapRule>,
    differs: Vec<Scope>,
}

// A book of each kind.
#[derive(Clone, Copy)]
pub struct Books<'a> {
    pub tables: TableBook<'a>,
    pub gaps: GapBook<'a>,
    pub differs: DifferBook<'a>,
}

impl Ledger {
    // Nothing gathered yet.
    pub fn new(heap: Global) -> Ledger
        ensures rows { result.rows.items ≡ [] }
        ensures tables { result.tables.items ≡ [] }
        ensures gaps { result.gaps.items ≡ [] }
        ensures differs { result.differs.items ≡ [] }
    {
        Ledger {
            rows: Vec::new(heap),
            tables: Vec::new(heap),
            gaps: Vec::new(heap),
            differs: Vec::new(heap),
        }
    }

    // Notes a table, with its rows after those of the others. Where memory runs out no rule is noted.
    pub fn table(&mut self, scope: Scope, rows: &[u32]) -> Result<(), AllocError>
        ensures rows { OnOk result (self.new.rows.items ≡ self.old.rows.items ++ rows.now) }
        ensures rules { self.new.tables.items ≡ (if is_ok result then (self.old.tables.items ++ record { scope = scope; first = vec_len self.old.rows; count = length rows.now } ∷ []) else self.old.tables.items) }
        ensures rest { (self.new.gaps ≡ self.old.gaps) × (self.new.differs ≡ self.old.differs) }
    {
        let first = self.rows.len();
        self.rows.extend_from_slice(rows)?;
        self.tables.push(TableRule {
            scope,
            first,
            count: rows.len(),
        })?;
        Ok(())
    }

    // Notes a gap, or none where memory runs out.
    pub fn gap(&mut self, scope: Scope, distance: i16) -> Result<(), AllocError>
        ensures rules { self.new.gaps.items ≡ (if is_ok result then (self.old.gaps.items ++ record { scope = scope; distance = distance } ∷ []) else self.old.gaps.items) }
        ensures rest { (self.new.rows ≡ self.old.rows) × (self.new.tables ≡ self.old.tables) × (self.new.differs ≡ self.old.differs) }
    {
        self.gaps.push(GapRule { scope, distance })?;
        Ok(())
    }

    // Notes a differ, or none where memory runs out.
    pub fn differ(&mut self, scope: Scope) -> Result<(), AllocError>
        ensures rules { self.new.differs.items ≡ (if is_ok result then self.old.differs.items ++ scope ∷ [] else self.old.differs.items) }
        ensures rest { (self.new.rows ≡ self.old.rows) × (self.new.tables ≡ self.old.tables) × (self.new.gaps ≡ self.old.gaps) }
    {
        self.differs.push(scope)?;
        Ok(())
    }

    // The books of what was gathered. Tables are numbered first, then gaps, then differs, and so is a refusal.
    #[tactic(auto, unfolding(gaps::specs::Gap::gap_fault, differs::specs::Differ::differ_fault, tables::specs::Table::table_model, books::specs::Twos::two_model))]
    pub fn books(&self) -> Result<Books<'_>, Refusal>
        ensures answer { told result ≡ ledger_fault self.now.rows.items self.now.tables.items self.now.gaps.items self.now.differs.items }
        ensures rows { IfOk result (λ books. books.tables.rows.now ≡ self.now.rows.items) }
        ensures tables { IfOk result (λ books. books.tables.rules.now ≡ self.now.tables.items) }
        ensures gaps { IfOk result (λ books. books.gaps.rules.now ≡ self.now.gaps.items) }
        ensures differs { IfOk result (λ books. books.differs.rules.now ≡ self.now.differs.items) }
    {
        let tables = TableBook::new(&self.rows, &self.tables)?;
        let before = tables.rules();
        let gaps = numbered(GapBook::new(&self.gaps), before)?;
        let before = before.saturating_add(gaps.rules());
        let differs = numbered(DifferBook::new(&self.differs), before)?;
        Ok(Books {
            tables,
            gaps,
            differs,
        })
    }
}

// A part of the book, or its refusal, numbered as in the whole.
fn numbered<T>(part: Result<T, Refusal>, before: u8) -> Result<T, Refusal>
    ensures answer { told result ≡ option_map (renumber before) (told part) }
    ensures part { IfOk result (λ t. part ≡ Ok t) }
{
    part.map_err(|fault| renumbered(fault, before))
}

// The refusal of a part of the book, with its rule numbered as in the whole.
fn renumbered(refusal: Refusal, before: u8) -> Refusal
    ensures { result ≡ renumber before refusal }
{
    match refusal {
        Refusal::BadQuestions { rule } => Refusal::BadQuestions {
            rule: rule.saturating_add(before),
        },
        Refusal::DistanceOutOfRange { rule } => {
            Refusal::DistanceOutOfRange {
                rule: rule.saturating_add(before),
            }
        }
        other => other,
    }
}
