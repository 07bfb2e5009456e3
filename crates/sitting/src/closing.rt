// How a sheet stands at the end of a sitting, and how it came to it.
ghost use Rattle.std.specs.Prelude.{◌≡◌, OnOk};
ghost use Rattle.sitting.specs.Tales.{tale};
ghost use Rattle.sitting.specs.Closings.{log_told, closing_told};

use books::book::{Book, ReasoningBook};
use calls::make::overview;
use sheet::sheet::Sheet;
use showing::logged::Logged;
use std::alloc::AllocError;
use telling::told::Told;
use terms::line::Line;

// Tells the lines of a log, each with the questions of its rule.
fn tell_log<B: Book>(told: &mut Told, book: &B, log: &[Line]) -> Result<(), AllocError>
    ensures { OnOk result (tale told.new ≡ log_told (B.Book.model book.now) 0 log.now (tale told.old)) }
{
    for (number, line) in log.iter().enumerate() {
        let logged = Logged {
            line: *line,
            scope: book.scope(line.rule),
        };
        told.line(format_args!("log {number}: {logged}"))?;
    }
    Ok(())
}

// Tells what stands, and the log.
pub(crate) fn close<B: ReasoningBook>(
    told: &mut Told,
    book: &B,
    sheet: &Sheet<'_, B>,
) -> Result<(), AllocError>
    ensures { OnOk result (tale told.new ≡ closing_told (B.Book.model book.now) sheet.now.state (tale told.old)) }
{
    told.answer("closing overview", overview(sheet))?;
    tell_log(told, book, sheet.log())
}
