// The words of a line that are to be numbers.
ghost use Rattle.std.specs.Prelude.{◌≡◌};
ghost use Rattle.wording.specs.Figures.{both};
ghost use Rattle.lines.specs.Marks.{texts};
ghost use Rattle.reading.specs.Commands.{number_of, numbers_of};
ghost use Rattle.reading.specs.Plain.{Comes, mistake};

use crate::fault::{Unread, Wrong};
use std::alloc::Global;
use wording::numbers::{self, written};

// The number from 0 to 255 that the word writes.
pub(crate) fn number<'a>(word: &'a str) -> Result<u8, Wrong<'a>>
    ensures { both (λ n. n) mistake result ≡ number_of word.now }
{
    written(word).ok_or(Wrong::NoByte(word))
}

// The numbers that the words write.
pub(crate) fn numbers<'a>(heap: Global, words: &[&'a str]) -> Result<Vec<u8>, Unread<'a>>
    ensures { Comes (λ v. v.items) result (numbers_of (texts words.now)) }
{
    let numbers = numbers::numbers(heap, words)?.map_err(Wrong::NoByte)?;
    Ok(numbers)
}
