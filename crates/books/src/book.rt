// What a book of rules is to everything above it.
ghost use Rattle.std.specs.Prelude.{◌≡◌, ℕ, List};
ghost use Rattle.books.specs.Plain.{Plain, Lawful};
ghost use Rattle.books.specs.Reasons.{Reasonable};

use terms::scope::Scope;

// An option at a position of a rule.
#[derive(Clone, Copy)]
pub struct Seat {
    pub rule: u8,
    pub position: u8,
    pub option: u8,
}

// The declared and the standing options of a rule's questions, a mask a position.
#[derive(Clone, Copy)]
pub struct Outlook {
    pub declared: [u32; 4],
    pub standing: [u32; 4],
}

// A plain book: rules, their questions, and support. Asking changes nothing.
pub trait Book {
    ghost model: { Self → Plain };

    // How many rules there are.
    fn rules(&self) -> u8
        ensures { result ≡ (model self.now).rules };

    // The rule's questions; a rule that the book lacks has none.
    fn scope(&self, rule: u8) -> Scope
        ensures { result ≡ (model self.now).scope rule };

    // Whether some allowed combination has the option at its position and, elsewhere, options of the masks.
    fn supports(&self, seat: Seat, masks: [u32; 4]) -> bool
        ensures { result ≡ (model self.now).supports seat.rule seat.position seat.option masks };

    // Does nothing: its contract is what generic code knows of every book.
    fn lawful(&self)
        ensures { Lawful (model self.now) };
}

// A book that also says why an option lacks support.
pub trait ReasoningBook: Book {
    ghost reasons: { Self → ℕ → ℕ → ℕ → List ℕ → List ℕ → List ℕ };

    // Options that do not stand and without which the option still lacks support; four empty masks where none is owed.
    fn reason(&self, seat: Seat, outlook: Outlook) -> [u32; 4]
        ensures { result ≡ reasons self.now seat.rule seat.position seat.option outlook.declared outlook.standing };

    // Does nothing: its contract is the law of reasons.
    fn reasonable(&self)
        ensures { Reasonable (Self.Book.model self.now) (reasons self.now) };
}
