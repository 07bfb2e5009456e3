// The lines of a log as text.
ghost use Rattle.std.specs.Prelude.{◌≡◌, Some};
ghost use Rattle.showing.specs.Texts.{named_text, because_text, logged_text, no_options};

use std::fmt;
use terms::line::{Kind, Line};
use terms::masks::has;
use terms::scope::Scope;

// The options of a mask, rising, each with its question. A loop over the options, here and in `Options`, as each is
// written where it is found.
#[derive(Clone, Copy)]
struct Named {
    question: u8,
    mask: u32,
}

impl fmt::Display for Named {
    ghost output = { λ x. Some (named_text x.question x.mask) };

    fn fmt<W: fmt::Write>(&self, f: &mut fmt::Formatter<W>) -> fmt::Result {
        let question = self.question;
        for option in 0..32u8 {
            if has(self.mask, option) {
                write!(f, " {question}:{option}")?;
            }
        }
        Ok(())
    }
}

// Whether the masks of a reason are all empty.
fn is_empty(reason: [u32; 4]) -> bool
    ensures { result ≡ no_options reason }
{
    reason.iter().all(|mask| *mask == 0)
}

// The options that a reason names, with their questions; nothing for an empty reason. The questions are a scope's and the
// masks a line's, which have them apart.
#[derive(Clone, Copy)]
pub struct Because {
    pub questions: [u8; 4],
    pub reason: [u32; 4],
}

impl fmt::Display for Because {
    ghost output = { λ x. Some (because_text x.questions x.reason) };

    fn fmt<W: fmt::Write>(&self, f: &mut fmt::Formatter<W>) -> fmt::Result {
        if is_empty(self.reason) {
            return Ok(());
        }
        f.write_str(" because")?;
        for (question, mask) in self.questions.iter().zip(self.reason.iter()) {
            let named = Named {
                question: *question,
                mask: *mask,
            };
            write!(f, "{named}")?;
        }
        Ok(())
    }
}

// A line of a sheet's log, with the questions of its rule.
#[derive(Clone, Copy)]
pub struct Logged {
    pub line: Line,
    pub scope: Scope,
}

impl fmt::Display for Logged {
    ghost output = { λ x. Some (logged_text x.line x.scope) };

    fn fmt<W: fmt::Write>(&self, f: &mut fmt::Formatter<W>) -> fmt::Result {
        let question = self.line.question;
        let option = self.line.option;
        if self.line.kind == u8::from(Kind::Pick) {
            return write!(f, "pick crosses {question} {option}");
        }
        let rule = self.line.rule;
        let because = Because {
            questions: self.scope.questions,
            reason: self.line.reason,
        };
        write!(f, "rule {rule} crosses {question} {option}{because}")
    }
}
