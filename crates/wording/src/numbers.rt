// Numbers as they are written in a sitting.
ghost use Rattle.std.specs.Prelude.{◌≡◌, ℕ, List, [], Option, IfOk};
ghost use Rattle.lines.specs.Marks.{texts};
ghost use Rattle.wording.specs.Figures.{ReadsAs, both, byte_of, distance_of, numbers_after};
ghost use Rattle.wording.specs.Numerals.{byte_reads, distance_reads};

use std::alloc::{AllocError, Global};
use std::num::ParseIntError;
use std::str::FromStr;

// A number that a word may write.
pub trait Number: FromStr<Err = ParseIntError> {
    // The number that a text writes, if it writes one.
    ghost number_in: { List ℕ → Option Self };

    // It is what `parse` reads, which also takes a plus.
    ghost reads: { ReadsAs number_in Self.from_str_gives };
}

// In decimal digits, at most 255.
impl Number for u8 {
    ghost number_in = { byte_of };

    ghost reads = { byte_reads };
}

// The same with a minus in front of it or without, if it fits 16 bits.
impl Number for i16 {
    ghost number_in = { distance_of };

    ghost reads = { distance_reads };
}

// The number that the word writes: a plus in front of it writes none.
pub fn written<T: Number>(word: &str) -> Option<T>
    ensures { result ≡ T.number_in word.now }
{
    if word.starts_with('+') {
        return None;
    }
    word.parse().ok()
}

// The numbers from 0 to 255 that the words write, or the first word that writes none.
#[tactic(auto, unfolding(crate::specs::Figures::numbers_after))]
pub fn numbers<'a>(heap: Global, words: &[&'a str]) -> Result<Result<Vec<u8>, &'a str>, AllocError>
    ensures { IfOk result (λ read. both (λ v. v.items) (λ w. w.now) read ≡ numbers_after [] (texts words.now)) }
{
    let mut numbers = Vec::new(heap);
    for word in words {
        let Some(number) = written(word) else {
            return Ok(Err(*word));
        };
        numbers.push(number)?;
    }
    Ok(Ok(numbers))
}
