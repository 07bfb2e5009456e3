// Opening a sheet on the rules that were gathered.
ghost use Rattle.std.specs.Prelude.{◌≡◌, map, IfOk, OnOk};
ghost use Rattle.lines.specs.Marks.{noted};
ghost use Rattle.sitting.specs.Tales.{tale};
ghost use Rattle.sitting.specs.Closings.{closing_told};
ghost use Rattle.sitting.specs.Scenes.{all_obeyed};
ghost use Rattle.sitting.specs.Sittings.{rules_of, refused_book, on_book, on_two, on_three, on_rules};

use crate::calling::obey_all;
use crate::closing::close;
use books::book::{Book, ReasoningBook};
use books::pair::Pair;
use ledger::ledger::Ledger;
use lines::words::Entry;
use sheet::sheet::Sheet;
use std::alloc::AllocError;
use telling::told::Told;
use terms::refusal::Refusal;

// The line that opens a sheet, with the sizes that it gives and the lines that follow it. What is told is no part of it,
// since it goes on to the sheet's calls without the rest.
#[derive(Clone, Copy)]
pub(crate) struct Opening<'e> {
    pub(crate) line: Entry<'e>,
    pub(crate) sizes: &'e [u8],
    pub(crate) calls: &'e [Entry<'e>],
}

// Makes the calls that follow on the sheet, and closes it.
fn attend<B: ReasoningBook>(
    told: &mut Told,
    book: &B,
    sheet: &mut Sheet<'_, B>,
    calls: &[Entry<'_>],
) -> Result<(), AllocError>
    ensures { OnOk result (tale told.new ≡ closing_told (B.Book.model book.now) (all_obeyed (B.Book.model sheet.old.book) (B.reasons sheet.old.book) (map noted calls.now) (record { state = sheet.old.state; tale = tale told.old })).state (all_obeyed (B.Book.model sheet.old.book) (B.reasons sheet.old.book) (map noted calls.now) (record { state = sheet.old.state; tale = tale told.old })).tale) }
{
    obey_all(told, sheet, calls)?;
    close(told, book, sheet)
}

// Opens a sheet on the book, unless it is refused; says whether it did.
fn open_on<B: ReasoningBook>(
    told: &mut Told,
    book: &B,
    opening: Opening<'_>,
) -> Result<bool, AllocError>
    ensures { IfOk result (λ done. record { done = done; tale = tale told.new } ≡ on_book (B.Book.model book.now) (B.reasons book.now) (noted opening.entry.line) opening.entry.sizes.now (map noted opening.entry.calls.now) (tale told.old)) }
{
    match Sheet::open(book, opening.sizes) {
        Ok(mut sheet) => {
            let questions = sheet.docket().count();
            let rules = book.rules();
            told.answer(
                opening.line.text,
                format_args!("{questions} questions, {rules} rules"),
            )?;
            attend(told, book, &mut sheet, opening.calls)?;
            Ok(true)
        }
        Err(refusal) => {
            told.answer(opening.line.text, refusal)?;
            Ok(false)
        }
    }
}

// A refused book is a fault of the line that would open a sheet on it.
#[tactic(auto, using(crate::proofs::TaleLaws::tale_faulted))]
fn refuse(told: &mut Told, entry: Entry<'_>, refusal: Refusal) -> Result<bool, AllocError>
    ensures { IfOk result (λ done. record { done = done; tale = tale told.new } ≡ refused_book (noted entry.entry) refusal (tale told.old)) }
{
    told.fault(entry.number, refusal)?;
    Ok(false)
}

// On two books as one. Their kinds are parameters, so that each pair lends from one lifetime.
#[tactic(auto, using(crate::proofs::OpeningLaws::two_granted, crate::proofs::OpeningLaws::two_refused))]
fn open_on_two<'a, F: ReasoningBook, S: ReasoningBook>(
    told: &mut Told,
    first: &'a F,
    second: &'a S,
    opening: Opening<'_>,
) -> Result<bool, AllocError>
    ensures { IfOk result (λ done. record { done = done; tale = tale told.new } ≡ on_two (F.Book.model first.now) (F.ReasoningBook.reasons first.now) (S.Book.model second.now) (S.ReasoningBook.reasons second.now) (noted opening.entry.line) opening.entry.sizes.now (map noted opening.entry.calls.now) (tale told.old)) }
{
    match Pair::new(first, second) {
        Ok(book) => open_on(told, &book, opening),
        Err(refusal) => refuse(told, opening.line, refusal),
    }
}

// On three: the second and the third are a pair, and the first with that pair.
#[tactic(auto, using(crate::proofs::OpeningLaws::three_granted, crate::proofs::OpeningLaws::three_refused))]
fn open_on_three<'a, F: ReasoningBook, S: ReasoningBook, T: ReasoningBook>(
    told: &mut Told,
    first: &'a F,
    second: &'a S,
    third: &'a T,
    opening: Opening<'_>,
) -> Result<bool, AllocError>
    ensures { IfOk result (λ done. record { done = done; tale = tale told.new } ≡ on_three (F.Book.model first.now) (F.ReasoningBook.reasons first.now) (S.Book.model second.now) (S.ReasoningBook.reasons second.now) (T.Book.model third.now) (T.ReasoningBook.reasons third.now) (noted opening.entry.line) opening.entry.sizes.now (map noted opening.entry.calls.now) (tale told.old)) }
{
    match Pair::new(second, third) {
        Ok(rest) => open_on_two(told, first, &rest, opening),
        Err(refusal) => refuse(told, opening.line, refusal),
    }
}

// Makes the book as it is now, and opens a sheet on it for the calls that follow, unless book or sheet is refused.
pub(crate) fn open(
    told: &mut Told,
    ledger: &Ledger,
    opening: Opening<'_>,
) -> Result<bool, AllocError>
    ensures { IfOk result (λ done. record { done = done; tale = tale told.new } ≡ on_rules (rules_of ledger.now) (noted opening.entry.line) opening.entry.sizes.now (map noted opening.entry.calls.now) (tale told.old)) }
{
    match ledger.books() {
        Ok(books) => open_on_three(told, &books.tables, &books.gaps, &books.differs, opening),
        Err(refusal) => refuse(told, opening.line, refusal),
    }
}
