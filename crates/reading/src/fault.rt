// Why a line cannot be read. What is told is written out, since a derived `Display` promises no text.
ghost use Rattle.std.specs.Prelude.{◌≡◌, Some, alloc_error};
ghost use Rattle.reading.specs.declared.fault.Unread.TheVariants.{Wrong as Amiss, Memory as Spent};
ghost use Rattle.reading.specs.Faults.{fault_text, mistake_text};
ghost use Rattle.reading.specs.Plain.{mistake};

use std::alloc::{AllocError, AllocFailed};
use std::fmt;

#[derive(Clone, Copy)]
pub enum Wrong<'a> {
    NoSuchCommand(&'a str),
    NoByte(&'a str),
    NoDistance(&'a str),
    WordCount,
    NoColon,
    // A row that has not one option for each question, counted from 1.
    RowLength { row: usize },
}

impl<'a> fmt::Display for Wrong<'a> {
    ghost output = { λ x. Some (mistake_text (mistake x)) };

    fn fmt<W: fmt::Write>(&self, f: &mut fmt::Formatter<W>) -> fmt::Result {
        match self {
            Wrong::NoSuchCommand(word) => write!(f, "'{word}' is no command"),
            Wrong::NoByte(word) => write!(f, "'{word}' is no number from 0 to 255"),
            Wrong::NoDistance(word) => write!(f, "'{word}' is no number from -32768 to 32767"),
            Wrong::WordCount => f.write_str("there are too few words or too many"),
            Wrong::NoColon => f.write_str("there is no colon"),
            Wrong::RowLength { row } => write!(f, "row {row} has not one option for each question"),
        }
    }
}

// What is wrong, and what was expected.
#[derive(Clone, Copy)]
pub struct Fault<'a> {
    pub wrong: Wrong<'a>,
    pub expected: &'static str,
}

impl<'a> fmt::Display for Fault<'a> {
    ghost output = { λ x. Some (fault_text (mistake x.wrong) x.expected.now) };

    fn fmt<W: fmt::Write>(&self, f: &mut fmt::Formatter<W>) -> fmt::Result {
        let wrong = self.wrong;
        let expected = self.expected;
        write!(f, "{wrong}; expected: {expected}")
    }
}

// What ends the reading of a line early.
#[derive(Clone, Copy)]
pub enum Unread<'a> {
    Wrong(Wrong<'a>),
    Memory(AllocError),
}

impl<'a> From<Wrong<'a>> for Unread<'a> {
    ghost from_gives = { λ w r. r ≡ Amiss w };

    fn from(wrong: Wrong<'a>) -> Unread<'a> {
        Unread::Wrong(wrong)
    }
}

impl<'a> From<AllocError> for Unread<'a> {
    ghost from_gives = { λ spent r. r ≡ Spent spent };

    fn from(spent: AllocError) -> Unread<'a> {
        Unread::Memory(spent)
    }
}

impl<'a, T: Drop> From<AllocFailed<T>> for Unread<'a> {
    ghost from_gives = { λ _ r. r ≡ Spent alloc_error };

    fn from(failed: AllocFailed<T>) -> Unread<'a> {
        Unread::Memory(failed.into())
    }
}
