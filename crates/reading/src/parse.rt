// From the text of a line to its command.
ghost use Rattle.std.specs.Prelude.{◌≡◌, drop, IfOk};
ghost use Rattle.wording.specs.Figures.{both};
ghost use Rattle.lines.specs.Marks.{texts};
ghost use Rattle.reading.specs.Commands.{gap_of, simple_of};
ghost use Rattle.reading.specs.Plain.{Comes, heard, mistake, said};
ghost use Rattle.reading.specs.Readings.{first_of, heard_of, said_by};
ghost use Rattle.reading.specs.Tables.{row_of, rows_of, table_of};

use crate::command::{Command, with_numbers};
use crate::fault::{Fault, Unread, Wrong};
use crate::numbers::{number, numbers};
use crate::scopes::{scope_in, scope_of};
use lines::words::words;
use std::alloc::{AllocError, Global};
use wording::numbers::written;
use wording::verb::{Verb, verbs};

// What a line says, or why it cannot be read.
pub type Reading<'a> = Result<Command, Fault<'a>>;

// Reads a line.
#[tactic(auto, unfolding(crate::specs::Readings::heard_of))]
pub fn read<'a>(heap: Global, line: &'a str) -> Result<Reading<'a>, AllocError>
    ensures { IfOk result (λ reading. heard reading ≡ heard_of line.now) }
{
    let words = words(heap, line)?;
    let (name, rest) = headed(words.as_slice());
    let Ok(verb) = name.parse::<Verb>() else {
        return Ok(Err(Fault {
            wrong: Wrong::NoSuchCommand(name),
            expected: verbs(),
        }));
    };
    match command(heap, verb, line, rest) {
        Ok(command) => Ok(Ok(command)),
        Err(Unread::Wrong(wrong)) => Ok(Err(Fault {
            wrong,
            expected: verb.form(),
        })),
        Err(Unread::Memory(spent)) => Err(spent),
    }
}

// The first word, and those that follow it.
fn headed<'w, 'a>(words: &'w [&'a str]) -> (&'a str, &'w [&'a str])
    ensures first { result.0.now ≡ first_of (texts words.now) }
    ensures rest { texts result.1.now ≡ drop 1 (texts words.now) }
{
    match words {
        [first, rest @ ..] => (*first, rest),
        [] => ("", words),
    }
}

// The command of the verb, from the words that follow it: each kind reads other things, so no table of functions.
fn command<'a>(
    heap: Global,
    verb: Verb,
    line: &'a str,
    words: &[&'a str],
) -> Result<Command, Unread<'a>>
    ensures { Comes said result (said_by verb line.now (texts words.now)) }
{
    match verb {
        Verb::Table => table(heap, line),
        Verb::Gap => Ok(gap(words)?),
        Verb::Open => Ok(Command::Open {
            sizes: numbers(heap, words)?,
        }),
        Verb::Differ | Verb::Place | Verb::Pick | Verb::Settle | Verb::Standing | Verb::Overview =>
            { simple(heap, verb, words) }
    }
}

// The command of a verb that only numbers follow.
fn simple<'a>(heap: Global, verb: Verb, words: &[&'a str]) -> Result<Command, Unread<'a>>
    ensures { Comes said result (simple_of verb (texts words.now)) }
{
    let numbers = numbers(heap, words)?;
    with_numbers(verb, numbers.as_slice()).ok_or(Unread::Wrong(Wrong::WordCount))
}

fn gap<'a>(words: &[&'a str]) -> Result<Command, Wrong<'a>>
    ensures { both said mistake result ≡ gap_of (texts words.now) }
{
    let [low, high, distance] = words else {
        return Err(Wrong::WordCount);
    };
    let low = number(low)?;
    let high = number(high)?;
    let distance = written(distance).ok_or(Wrong::NoDistance(distance))?;
    Ok(Command::Gap {
        scope: scope_of(&[low, high]),
        distance,
    })
}

#[tactic(auto, using(crate::proofs::Colons::cut, crate::proofs::Colons::uncut))]
fn table<'a>(heap: Global, line: &'a str) -> Result<Command, Unread<'a>>
    ensures { Comes said result (table_of line.now) }
{
    let (before, after) = line.split_once(':').ok_or(Wrong::NoColon)?;
    let words = words(heap, before)?;
    let (_verb, questions) = headed(words.as_slice());
    let scope = scope_in(questions)?;
    let rows = rows(heap, after, scope.count)?;
    Ok(Command::Table { scope, rows })
}

// Rows apart by commas, each with as many options as there are questions; none in a blank text.
fn rows<'a>(heap: Global, text: &'a str, count: u8) -> Result<Vec<u32>, Unread<'a>>
    ensures { Comes (λ v. v.items) result (rows_of count text.now) }
{
    let mut rows = Vec::new(heap);
    if text.trim().is_empty() {
        return Ok(rows);
    }
    for written in text.split(',') {
        let options = row(heap, written, count, rows.len() + 1)?;
        rows.push(options)?;
    }
    Ok(rows)
}

// The row that the text writes, with one option for each question.
#[tactic(auto, unfolding(crate::specs::Scopes::first_four))]
fn row<'a>(heap: Global, text: &'a str, count: u8, number: usize) -> Result<u32, Unread<'a>>
    ensures { Comes (λ n. n) result (row_of count number text.now) }
{
    let words = words(heap, text)?;
    let options = scope_in(words.as_slice())?;
    if options.count != count {
        return Err(Unread::Wrong(Wrong::RowLength { row: number }));
    }
    Ok(u32::from_le_bytes(options.questions))
}
