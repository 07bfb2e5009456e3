// What a granted call on a sheet answers.
ghost use Rattle.std.specs.Prelude.{Some};
ghost use Rattle.calls.specs.Texts.{answer_text};

use showing::options::Options;
use showing::overview::Overview;
use std::fmt;

#[derive(Clone, Copy)]
pub enum Answer {
    // Nothing but that it is granted.
    Done,
    // How many lines the log has.
    Lines(usize),
    // The standing options of one question.
    Standing(u32),
    // Those of every question.
    Overview(Overview),
}

impl fmt::Display for Answer {
    ghost output = { λ a. Some (answer_text a) };

    fn fmt<W: fmt::Write>(&self, f: &mut fmt::Formatter<W>) -> fmt::Result {
        match *self {
            Answer::Done => f.write_str("done"),
            Answer::Lines(count) => write!(f, "{count} lines"),
            Answer::Standing(mask) => f.write(Options(mask)),
            Answer::Overview(overview) => f.write(overview),
        }
    }
}
