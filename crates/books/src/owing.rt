// When a book owes a reason.
ghost use Rattle.std.specs.Prelude.{◌≡◌};
ghost use Rattle.books.specs.Reasons.{owed};

use crate::book::{Book, Outlook, Seat};
use terms::masks::within_each;

// Whether the rule has that position, the option can be, the standing masks are declared, and the option lacks support.
#[tactic(auto, using(crate::proofs::OwingLaws::counted, std::proofs::lemmas::Bool::Decides::nat_tests), unfolding(crate::specs::Reasons::owed))]
pub fn owed<B: Book>(book: &B, seat: Seat, outlook: Outlook) -> bool
    ensures { result ≡ owed (B.model book.now) seat.rule seat.position seat.option outlook.declared outlook.standing }
{
    seat.rule < book.rules()
        && seat.position < book.scope(seat.rule).count.min(4)
        && seat.option < 32
        && within_each(outlook.standing, outlook.declared)
        && !book.supports(seat, outlook.standing)
}
