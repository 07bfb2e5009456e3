// A line of a log: it crosses one option, its head.
ghost use Rattle.std.specs.Prelude.{◌≡◌};
ghost use Rattle.terms.specs.Kinds.{number_of};

// What a line is, told by its number. A sheet's own log has the first two only.
#[derive(Clone, Copy)]
pub enum Kind {
    Pick,
    Rule,
    Try,
    Shut,
}

impl From<Kind> for u8 {
    ghost from_gives = { λ kind number. number ≡ number_of kind };

    fn from(kind: Kind) -> u8 {
        match kind {
            Kind::Pick => 1,
            Kind::Rule => 2,
            Kind::Try => 3,
            Kind::Shut => 4,
        }
    }
}

// The kind stays a plain number here, since a line may come from anywhere, and a reader of lines has to be able to refuse
// another kind by its line, as refusal 21.
// Fields that a kind does not use are 0; position j of the reason speaks of the question at position j of the rule.
#[derive(Clone, Copy, Default)]
pub struct Line {
    pub kind: u8,
    pub rule: u8,
    pub question: u8,
    pub option: u8,
    pub reason: [u32; 4],
}

// What a place holds that no line was written to, as a constant, which `Line::default()` is not.
pub const BLANK: Line = Line {
    kind: 0,
    rule: 0,
    question: 0,
    option: 0,
    reason: [0; 4],
};

// A sheet's log has no more lines than options that can be crossed, 16 times 32.
pub const LOG_LINES: usize = 512;
