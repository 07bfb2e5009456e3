// A sheet over a book.
use record::state::Record;
use std::marker::Model;

// The book is lent and never changed; the record knows no book.
#[derive(Drop)]
pub struct Sheet<'a, B> {
    pub(crate) book: &'a B,
    pub(crate) state: Record,
}

impl<'a, B> Model for Sheet<'a, B> {
    ghost use Rattle.record.specs.View.{view as plain};
    ghost use Rattle.sheet.specs.Seen.{Seen};

    ghost Value = { Seen B };

    ghost view = { λ s. record { book = s.book.now; state = plain s.state } };
}
