// The questions that a rule ties, in position order.
ghost use Rattle.std.specs.Prelude.{◌≡◌};
ghost use Rattle.terms.specs.Scopes.{mask_at, masks_at, questions_of};

use crate::masks::mask_of;
use std::array;

// A count and four numbers, of which the first `count` are the questions. It is handed in and noted by value, without
// a heap, and its count may be any number, which a book refuses: so no vector, and no narrower type.
#[derive(Clone, Copy)]
pub struct Scope {
    pub count: u8,
    pub questions: [u8; 4],
}

impl Scope {
    // The questions alone.
    pub fn tied(&self) -> &[u8]
        ensures { result.now ≡ questions_of self.now }
    {
        &self.questions[..usize::from(self.count.min(4))]
    }
}

// The questions of a rule that is not there.
pub const NO_SCOPE: Scope = Scope {
    count: 0,
    questions: [0; 4],
};

// The mask of the question at a position; nothing past the last position, or off the sheet.
pub fn mask_at(masks: [u32; 16], scope: Scope, position: usize) -> u32
    ensures { result ≡ mask_at masks scope position }
{
    match scope.tied().get(position) {
        Some(question) => mask_of(masks, *question),
        None => 0,
    }
}

// The masks of a rule's questions, position by position.
pub fn masks_at(masks: [u32; 16], scope: Scope) -> [u32; 4]
    ensures { result ≡ masks_at masks scope }
{
    array::from_fn(|position| mask_at(masks, scope, position))
}
