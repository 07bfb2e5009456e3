// Making and reading the problem of a sheet.
ghost use Rattle.std.specs.Prelude.{◌≡◌, ◌-◌, ◌<◌, ◌≤◌, ◌++◌, length, replicate, IfOk, slice_index};
ghost use Rattle.record.specs.Told.{told};
ghost use Rattle.record.specs.Calls.{open_fault, all_below};
ghost use Rattle.record.specs.Dockets.{Unpicked, WithPick};
ghost use Rattle.terms.specs.Scopes.{questions_of};

use crate::docket::Docket;
use terms::refusal::Refusal;
use terms::scope::Scope;

// Tests the sizes of a new sheet: none or more than 16, then the first that is 0 or above 32.
fn check_sizes(sizes: &[u8]) -> Result<(), Refusal>
    ensures { told result ≡ open_fault sizes.now }
{
    if sizes.is_empty() || sizes.len() > 16 {
        return Err(Refusal::QuestionCount);
    }
    match sizes.iter().position(|size| *size == 0 || *size > 32) {
        Some(question) => Err(Refusal::SizeOutOfRange {
            question: question as u8,
        }),
        None => Ok(()),
    }
}

// The sizes, and 0 past the last question.
fn padded(sizes: &[u8]) -> [u8; 16]
    requires { length sizes.now ≤ 16 }
    ensures { result ≡ sizes.now ++ replicate (16 - length sizes.now) 0 }
{
    let mut all = [0; 16];
    all[..sizes.len()].copy_from_slice(sizes);
    all
}

// Whether every question of the rule is on a sheet of so many.
pub(crate) fn on_sheet(scope: Scope, count: u8) -> bool
    ensures { result ≡ all_below count (questions_of scope) }
{
    scope.tied().iter().all(|question| *question < count)
}

impl Docket {
    // The problem with these sizes, no picks and no placed rules. An opening passes through this, a record's and a
    // sheet's `open`, and each has to say of its own result what `check_sizes` refuses.
    pub(crate) fn unpicked(sizes: &[u8]) -> Result<Docket, Refusal>
        ensures answer { told result ≡ open_fault sizes.now }
        ensures value { IfOk result (Unpicked sizes.now) }
    {
        check_sizes(sizes)?;
        let all = padded(sizes);
        Ok(Docket {
            count: sizes.len() as u8,
            sizes: all,
            picks: [None; 16],
            placed: 0,
        })
    }

    // The problem with the pick noted.
    pub(crate) fn with_pick(mut self, question: usize, option: u8) -> Docket
        requires { option < slice_index self.sizes question }
        ensures { WithPick self question option result }
    {
        self.picks[question] = Some(option);
        self
    }
}
