// What one line of a sitting says.
ghost use Rattle.std.specs.Prelude.{◌≡◌};
ghost use Rattle.reading.specs.Commands.{command_of};

use crate::scopes::scope_of;
use terms::call::Call;
use terms::scope::Scope;
use wording::verb::Verb;

#[derive(Drop)]
pub enum Command {
    // The lines that make the book.
    Table { scope: Scope, rows: Vec<u32> },
    Gap { scope: Scope, distance: i16 },
    Differ { scope: Scope },
    // The sizes of the questions: it closes the book.
    Open { sizes: Vec<u8> },
    Call(Call),
}

// The command of a verb that only numbers follow, if they are as many as it takes. The verbs take unlike numbers to
// unlike commands, so no table of functions.
pub fn with_numbers(verb: Verb, numbers: &[u8]) -> Option<Command>
    ensures { result ≡ command_of verb numbers.now }
{
    let call = match (verb, numbers) {
        (Verb::Differ, [_, _]) => return Some(Command::Differ {
            scope: scope_of(numbers),
        }),
        (Verb::Place, &[rule]) => Call::Place { rule },
        (Verb::Pick, &[question, option]) => Call::Pick { question, option },
        (Verb::Settle, []) => Call::Settle,
        (Verb::Standing, &[question]) => Call::Standing { question },
        (Verb::Overview, []) => Call::Overview,
        _ => return None,
    };
    Some(Command::Call(call))
}
