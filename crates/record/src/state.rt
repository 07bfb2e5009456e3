// What a sheet holds, and what is true of it at all times.
ghost use Rattle.std.specs.Prelude.{◌≡◌, length};
ghost use Rattle.record.specs.State.{total};
ghost use Rattle.record.specs.Sound.{Heads, Declared, Once, Backed};

use crate::docket::Docket;
use arrayvec::ArrayVec;
use terms::line::{LOG_LINES, Line};
use terms::scope::Scope;

// The problem, the questions of its rules as they were noted at place, the crossed options and the log.
// The crossed options are exactly the heads of the log, no head comes twice, a reason holds only heads of earlier lines,
// and there are as many lines as crossed options, so that 512 lines always suffice.
// Which rules are noted is the docket's to say, which is handed out alone: the scopes have no mark of their own.
#[derive(Drop)]
pub struct Record {
    pub(crate) docket: Docket,
    pub(crate) scopes: [Scope; 64],
    pub(crate) crossed: [u32; 16],
    pub(crate) log: ArrayVec<Line, LOG_LINES>,
    ghost rules: { length scopes ≡ 64 },
    ghost questions: { length crossed ≡ 16 },
    ghost heads: { Heads crossed log.items },
    ghost declared: { Declared docket.sizes log.items },
    ghost once: { Once log.items },
    ghost backed: { Backed docket.placed scopes log.items },
    ghost counted: { total crossed ≡ length log.items },
}
