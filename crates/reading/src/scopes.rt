// A scope, and a row, of the numbers that were written.
ghost use Rattle.std.specs.Prelude.{◌≡◌, slice_set};
ghost use Rattle.wording.specs.Figures.{both};
ghost use Rattle.lines.specs.Marks.{texts};
ghost use Rattle.reading.specs.Commands.{numbers_of};
ghost use Rattle.reading.specs.Plain.{mistake};
ghost use Rattle.reading.specs.Scopes.{count_of, first_four, scope_of};

use crate::fault::Wrong;
use crate::numbers::number;
use terms::scope::Scope;

// How many there are; 255 where there are more.
#[tactic(auto, unfolding(crate::specs::Scopes::count_of))]
pub(crate) fn count_of<T>(items: &[T]) -> u8
    ensures { result ≡ count_of items.now }
{
    u8::try_from(items.len()).unwrap_or(u8::MAX)
}

// The first four, with 0 for each that is not there.
#[tactic(auto, unfolding(crate::specs::Scopes::first_four))]
pub(crate) fn first_four(numbers: &[u8]) -> [u8; 4]
    ensures { result ≡ first_four numbers.now }
{
    std::array::from_fn(|i| numbers.get(i).copied().unwrap_or(0))
}

// Puts the question at its place among the four; one past them changes nothing.
fn note(questions: &mut [u8; 4], place: usize, question: u8)
    ensures { questions.new ≡ slice_set questions.old place question }
{
    if place < 4 {
        questions[place] = question;
    }
}

// The questions that the words write, however many, or the first word that writes no number. It asks for no memory, and
// reads each word once.
#[tactic(auto, using(crate::proofs::Words::noted_next), unfolding(wording::specs::Figures::numbers_after, crate::specs::Scopes::first_four))]
pub fn scope_in<'a>(words: &[&'a str]) -> Result<Scope, Wrong<'a>>
    ensures { both (λ s. s) mistake result ≡ both scope_of (λ m. m) (numbers_of (texts words.now)) }
{
    let mut questions = [0; 4];
    for (place, word) in words.iter().enumerate() {
        let question = number(word)?;
        note(&mut questions, place, question);
    }
    Ok(Scope {
        count: count_of(words),
        questions,
    })
}

// The questions that the numbers are, however many.
pub(crate) fn scope_of(numbers: &[u8]) -> Scope
    ensures { result ≡ scope_of numbers.now }
{
    Scope {
        count: count_of(numbers),
        questions: first_four(numbers),
    }
}
