// A whole sitting, from its text to what is told.
ghost use Rattle.std.specs.Prelude.{◌≡◌, map, IfOk, OnOk};
ghost use Rattle.reading.specs.Plain.{said};
ghost use Rattle.reading.specs.Readings.{heard_of};
ghost use Rattle.lines.specs.Marks.{noted};
ghost use Rattle.sitting.specs.Tales.{tale};
ghost use Rattle.sitting.specs.Sittings.{rules_of, no_rules, with_rule, note_told, turn, lines_told, sitting_told};

use crate::opening::{Opening, open};
use ledger::ledger::Ledger;
use lines::words::{Entry, entries};
use reading::command::Command;
use reading::parse::read;
use std::alloc::{AllocError, Global};
use telling::told::Told;

// A line of the book; the calls have to wait for a sheet. One match on what was said, as each rule is noted in its own way.
fn note(
    told: &mut Told,
    ledger: &mut Ledger,
    entry: Entry<'_>,
    command: Command,
) -> Result<(), AllocError>
    ensures rules { OnOk result (rules_of ledger.new ≡ with_rule (said command) (rules_of ledger.old)) }
    ensures told { OnOk result (tale told.new ≡ note_told (noted entry.entry) (said command) (tale told.old)) }
{
    match command {
        Command::Table { scope, rows } => ledger.table(scope, rows.as_slice())?,
        Command::Gap { scope, distance } => ledger.gap(scope, distance)?,
        Command::Differ { scope } => ledger.differ(scope)?,
        _ => return told.fault(
            entry.number,
            "no sheet is open; expected: a rule of the book, or open SIZE..",
        ),
    }
    told.answer(entry.text, "noted")
}

// Takes one line, before a sheet is open; says whether it opened one, on which those that follow were then made.
fn take(
    told: &mut Told,
    ledger: &mut Ledger,
    entry: Entry<'_>,
    rest: &[Entry<'_>],
) -> Result<bool, AllocError>
    ensures { IfOk result (λ done. record { done = done; rules = rules_of ledger.new; tale = tale told.new } ≡ turn (rules_of ledger.old) (noted entry.entry) (heard_of entry.entry.text.now) (map noted rest.now) (tale told.old)) }
{
    match read(*told.text.allocator(), entry.text)? {
        Ok(Command::Open { sizes }) => {
            let opening = Opening {
                line: entry,
                sizes: sizes.as_slice(),
                calls: rest,
            };
            open(told, ledger, opening)
        }
        Ok(command) => {
            note(told, ledger, entry, command)?;
            Ok(false)
        }
        Err(fault) => {
            told.fault(entry.number, fault)?;
            Ok(false)
        }
    }
}

// Takes the lines until one opens a sheet. They are counted to hand on those that follow: a loop that splits the first
// off the rest did not prove.
fn take_all(told: &mut Told, entries: &[Entry<'_>]) -> Result<(), AllocError>
    ensures { OnOk result (tale told.new ≡ lines_told no_rules (map noted entries.now) (tale told.old)) }
{
    let mut ledger = Ledger::new(*told.text.allocator());
    for (index, entry) in entries.iter().enumerate() {
        if take(told, &mut ledger, *entry, &entries[index + 1..])? {
            return Ok(());
        }
    }
    told.line("no sheet was opened")
}

// What the sitting tells: an answer for every line that has a word, then how its sheet ended and why.
#[tactic(auto, unfolding(crate::specs::Sittings::sitting_told))]
pub fn run(heap: Global, text: &str) -> Result<Told, AllocError>
    ensures { IfOk result (λ told. tale told ≡ sitting_told text.now) }
{
    let entries = entries(heap, text)?;
    let mut told = Told::new(heap);
    take_all(&mut told, entries.as_slice())?;
    Ok(told)
}
