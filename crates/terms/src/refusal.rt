// What a denied call says: a case for each of the 29 refusals, with the place where it has one.
ghost use Rattle.std.specs.Prelude.{◌≡◌, Some};
ghost use Rattle.terms.specs.Denials.{denied_text, refusal_text};
ghost use Rattle.terms.specs.Refusals.{number_of, place_of};

use std::error::Error;
use std::fmt;

#[derive(Clone, Copy, Debug)]
pub enum Refusal {
    // 1: no question, or more than 16
    QuestionCount,
    // 2: a size is 0 or above 32
    SizeOutOfRange { question: u8 },
    // 3: a book or a pair would have more than 64 rules
    TooManyRules,
    // 4: a rule's questions are too few or too many, above 15, or one twice
    BadQuestions { rule: u8 },
    // 5: a table rule's rows run past the list, or a used row has a byte that cannot be
    BadRows { rule: u8 },
    // 6: a gap's distance is outside -31 to 31
    DistanceOutOfRange { rule: u8 },
    // 7: the question is not on the sheet
    NoSuchQuestion { question: u8 },
    // 8: the option is not below its question's size
    NoSuchOption { question: u8 },
    // 9: the rule is not in the book
    NoSuchRule { rule: u8 },
    // 10: the rule has a question that is not on the sheet
    RuleOffSheet { rule: u8 },
    // 11: place finds the rule placed, lift finds it absent
    PlacementStands { rule: u8 },
    // 12: pick finds a pick there, unpick finds none
    PickStands { question: u8 },
    // 13: explain is given a standing option
    OptionStands { question: u8 },
    // 14: more lines are needed than were handed in
    TooFewLines,
    // 15: a file is to hold over 2,000 lines
    FileTooLong,
    // 16: the bytes to write into are too few
    TooFewBytes,
    // 17: under 48 bytes, or another mark or version
    NotALogFile,
    // 18: a header field is outside its range
    HeaderOutOfRange { byte: usize },
    // 19: the line count is over 2,000 or disagrees with the length
    LineCountWrong,
    // 20: the file's docket is not the one given
    OtherDocket,
    // 21: another kind, a question or option off the docket, or an unused field that is not 0
    MalformedLine { line: usize },
    // 22: the question has no pick, or is picked as that option
    PickLineUnfounded { line: usize },
    // 23: the rule is not placed or lacks that question
    RuleLineUnfounded { line: usize },
    // 24: a reason names an option not crossed, its own position, or one past the last
    ReasonUnfounded { line: usize },
    // 25: the option has support under the declared options less the reason
    OptionSupported { line: usize },
    // 26: the option is crossed already
    CrossedAlready { line: usize },
    // 27: a try opens while 16 are open
    TooManyTries { line: usize },
    // 28: a shut has no open try, names another than the innermost, or finds no question empty
    ShutUnfounded { line: usize },
    // 29: a try is open at the end
    TryLeftOpen,
}

impl Refusal {
    // The number by which it is told.
    pub fn number(&self) -> u8
        ensures { result ≡ number_of self.now }
    {
        match self {
            Refusal::QuestionCount => 1,
            Refusal::SizeOutOfRange { .. } => 2,
            Refusal::TooManyRules => 3,
            Refusal::BadQuestions { .. } => 4,
            Refusal::BadRows { .. } => 5,
            Refusal::DistanceOutOfRange { .. } => 6,
            Refusal::NoSuchQuestion { .. } => 7,
            Refusal::NoSuchOption { .. } => 8,
            Refusal::NoSuchRule { .. } => 9,
            Refusal::RuleOffSheet { .. } => 10,
            Refusal::PlacementStands { .. } => 11,
            Refusal::PickStands { .. } => 12,
            Refusal::OptionStands { .. } => 13,
            Refusal::TooFewLines => 14,
            Refusal::FileTooLong => 15,
            Refusal::TooFewBytes => 16,
            Refusal::NotALogFile => 17,
            Refusal::HeaderOutOfRange { .. } => 18,
            Refusal::LineCountWrong => 19,
            Refusal::OtherDocket => 20,
            Refusal::MalformedLine { .. } => 21,
            Refusal::PickLineUnfounded { .. } => 22,
            Refusal::RuleLineUnfounded { .. } => 23,
            Refusal::ReasonUnfounded { .. } => 24,
            Refusal::OptionSupported { .. } => 25,
            Refusal::CrossedAlready { .. } => 26,
            Refusal::TooManyTries { .. } => 27,
            Refusal::ShutUnfounded { .. } => 28,
            Refusal::TryLeftOpen => 29,
        }
    }

    // The question, rule, byte or line that it speaks of, else 0.
    pub fn place(&self) -> usize
        ensures { result ≡ place_of self.now }
    {
        match self {
            Refusal::SizeOutOfRange { question }
            | Refusal::NoSuchQuestion { question }
            | Refusal::NoSuchOption { question }
            | Refusal::PickStands { question }
            | Refusal::OptionStands { question } => usize::from(*question),
            Refusal::BadQuestions { rule }
            | Refusal::BadRows { rule }
            | Refusal::DistanceOutOfRange { rule }
            | Refusal::NoSuchRule { rule }
            | Refusal::RuleOffSheet { rule }
            | Refusal::PlacementStands { rule } => usize::from(*rule),
            Refusal::HeaderOutOfRange { byte } => *byte,
            Refusal::MalformedLine { line }
            | Refusal::PickLineUnfounded { line }
            | Refusal::RuleLineUnfounded { line }
            | Refusal::ReasonUnfounded { line }
            | Refusal::OptionSupported { line }
            | Refusal::CrossedAlready { line }
            | Refusal::TooManyTries { line }
            | Refusal::ShutUnfounded { line } => *line,
            Refusal::QuestionCount
            | Refusal::TooManyRules
            | Refusal::TooFewLines
            | Refusal::FileTooLong
            | Refusal::TooFewBytes
            | Refusal::NotALogFile
            | Refusal::LineCountWrong
            | Refusal::OtherDocket
            | Refusal::TryLeftOpen => 0,
        }
    }

    // What it says.
    fn text(&self) -> &'static str
        ensures { result.now ≡ refusal_text self.now }
    {
        match self {
            Refusal::QuestionCount => "there is no question, or there are more than 16",
            Refusal::SizeOutOfRange { .. } => "a size is 0 or above 32",
            Refusal::TooManyRules => "the book would have more than 64 rules",
            Refusal::BadQuestions { .. } =>
                "a rule has too few questions or too many, one above 15, or one twice",
            Refusal::BadRows { .. } =>
                "a table's row has an option above 31 or a byte past its last question, or is not in the list",
            Refusal::DistanceOutOfRange { .. } => "a gap's distance is not from -31 to 31",
            Refusal::NoSuchQuestion { .. } => "the question is not on the sheet",
            Refusal::NoSuchOption { .. } => "the option is not below its question's size",
            Refusal::NoSuchRule { .. } => "the rule is not in the book",
            Refusal::RuleOffSheet { .. } => "the rule has a question that is not on the sheet",
            Refusal::PlacementStands { .. } =>
                "the rule is placed already, or is not there to be lifted",
            Refusal::PickStands { .. } =>
                "the question has a pick already, or has none to take back",
            Refusal::OptionStands { .. } => "the option stands",
            Refusal::TooFewLines => "more lines are needed than were handed in",
            Refusal::FileTooLong => "a log file holds at most 2000 lines",
            Refusal::TooFewBytes => "the bytes to write into are too few",
            Refusal::NotALogFile => "the file is too short, or has another mark or version",
            Refusal::HeaderOutOfRange { .. } => "a field of the header is outside its range",
            Refusal::LineCountWrong => "the line count is above 2000 or disagrees with the length",
            Refusal::OtherDocket => "the file is for another docket",
            Refusal::MalformedLine { .. } =>
                "the line has another kind, a question or option off the docket, or an unused field that is not 0",
            Refusal::PickLineUnfounded { .. } =>
                "the question has no pick, or is picked as that option",
            Refusal::RuleLineUnfounded { .. } => "the rule is not placed or lacks that question",
            Refusal::ReasonUnfounded { .. } =>
                "the reason names an option not crossed, its own position, or one past the last",
            Refusal::OptionSupported { .. } =>
                "the option has support under the declared options less the reason",
            Refusal::CrossedAlready { .. } => "the option is crossed already",
            Refusal::TooManyTries { .. } => "a try opens while 16 are open",
            Refusal::ShutUnfounded { .. } =>
                "no try is open, another one is the innermost, or no question is empty",
            Refusal::TryLeftOpen => "a try is open at the end",
        }
    }
}

impl fmt::Display for Refusal {
    ghost output = { λ e. Some (denied_text e) };

    fn fmt<W: fmt::Write>(&self, f: &mut fmt::Formatter<W>) -> fmt::Result {
        let number = self.number();
        let place = self.place();
        let text = self.text();
        write!(f, "refused {number} at {place}: {text}")
    }
}

impl Error for Refusal {}
