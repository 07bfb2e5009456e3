// The calls of a sitting.
ghost use Rattle.std.specs.Prelude.{◌≡◌, map, OnOk};
ghost use Rattle.reading.specs.Plain.{said};
ghost use Rattle.reading.specs.Readings.{heard_of};
ghost use Rattle.wording.specs.Figures.{both};
ghost use Rattle.lines.specs.Marks.{noted};
ghost use Rattle.sitting.specs.Scenes.{call_in, called, obeyed, all_obeyed, going_on, played};

use books::book::{Book, ReasoningBook};
use calls::make::make;
use lines::words::Entry;
use reading::command::Command;
use reading::parse::read;
use sheet::sheet::Sheet;
use std::alloc::AllocError;
use telling::told::Told;
use terms::call::Call;

// The call that a command is, or what is wrong with one that is no call, now that a sheet is open: one match on what
// was said, since a command carries what its case needs.
fn call_of(command: &Command) -> Result<Call, &'static str>
    ensures { both (λ call. call) (λ text. text.now) result ≡ call_in (said command.now) }
{
    match command {
        Command::Call(call) => Ok(*call),
        Command::Open { .. } => Err("a sheet is open already; expected: a call on it"),
        Command::Table { .. } | Command::Gap { .. } | Command::Differ { .. } => {
            Err("the book is closed; expected: a call on the sheet")
        }
    }
}

// Makes the call that the command is. What is told and the sheet stay two parameters, here and below: a struct of both
// would be made once, by `attend`, and taken apart in every line.
fn obey<B: ReasoningBook>(
    told: &mut Told,
    sheet: &mut Sheet<'_, B>,
    entry: Entry<'_>,
    command: Command,
) -> Result<(), AllocError>
    ensures scene { OnOk result (played sheet.new told.new ≡ going_on (called (B.Book.model sheet.old.book) (B.reasons sheet.old.book) (noted entry.entry) (call_in (said command))) (played sheet.old told.old)) }
    ensures book { sheet.new.book ≡ sheet.old.book }
{
    match call_of(&command) {
        Ok(call) => match make(sheet, call) {
            Ok(answer) => told.answer(entry.text, answer),
            Err(refusal) => told.answer(entry.text, refusal),
        },
        Err(what) => told.fault(entry.number, what),
    }
}

// Takes one line: what cannot be read or is no call is told.
fn obey_line<B: ReasoningBook>(
    told: &mut Told,
    sheet: &mut Sheet<'_, B>,
    entry: Entry<'_>,
) -> Result<(), AllocError>
    ensures scene { OnOk result (played sheet.new told.new ≡ going_on (obeyed (B.Book.model sheet.old.book) (B.reasons sheet.old.book) (noted entry.entry) (heard_of entry.entry.text.now)) (played sheet.old told.old)) }
    ensures book { sheet.new.book ≡ sheet.old.book }
{
    match read(*told.text.allocator(), entry.text)? {
        Ok(command) => obey(told, sheet, entry, command),
        Err(fault) => told.fault(entry.number, fault),
    }
}

// Takes the lines, each on the sheet as the last left it.
pub(crate) fn obey_all<B: ReasoningBook>(
    told: &mut Told,
    sheet: &mut Sheet<'_, B>,
    entries: &[Entry<'_>],
) -> Result<(), AllocError>
    ensures scene { OnOk result (played sheet.new told.new ≡ going_on (all_obeyed (B.Book.model sheet.old.book) (B.reasons sheet.old.book) (map noted entries.now)) (played sheet.old told.old)) }
    ensures book { sheet.new.book ≡ sheet.old.book }
{
    for entry in entries {
        obey_line(told, sheet, *entry)?;
    }
    Ok(())
}
