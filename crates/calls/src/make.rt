// Making a call on a sheet.
ghost use Rattle.std.specs.Prelude.{◌≡◌};
ghost use Rattle.calls.specs.Answers.{overview_of, answer_of, after_call};

use crate::answer::Answer;
use books::book::{Book, ReasoningBook};
use sheet::sheet::Sheet;
use showing::overview::Overview;
use terms::call::Call;
use terms::refusal::Refusal;

// What stands, question by question.
pub fn overview<B: ReasoningBook>(sheet: &Sheet<'_, B>) -> Answer
    ensures { result ≡ overview_of sheet.now.state }
{
    Answer::Overview(Overview {
        count: sheet.docket().count(),
        masks: sheet.overview(),
    })
}

// Makes the call and says what it answered. Each arm has arguments and an answer of its own, so no table of functions.
pub fn make<B: ReasoningBook>(sheet: &mut Sheet<'_, B>, call: Call) -> Result<Answer, Refusal>
    ensures answer { result ≡ answer_of (B.Book.model sheet.old.book) (B.reasons sheet.old.book) call sheet.old.state }
    ensures after { sheet.new ≡ record { book = sheet.old.book; state = after_call (B.Book.model sheet.old.book) (B.reasons sheet.old.book) call sheet.old.state } }
{
    match call {
        Call::Place { rule } => {
            sheet.place(rule)?;
            Ok(Answer::Done)
        }
        Call::Pick { question, option } => {
            sheet.pick(question, option)?;
            Ok(Answer::Done)
        }
        Call::Settle => {
            sheet.settle();
            Ok(Answer::Lines(sheet.log().len()))
        }
        Call::Standing { question } => Ok(Answer::Standing(sheet.standing(question)?)),
        Call::Overview => Ok(overview(sheet)),
    }
}
