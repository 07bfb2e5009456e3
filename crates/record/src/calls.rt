// What is done to a record. Each call answers, and leaves, what its definition says.
ghost use Rattle.std.specs.Prelude.{◌≡◌, length, IfOk, if◌then◌else◌};
ghost use Rattle.record.specs.Told.{told, unless};
ghost use Rattle.record.specs.Calls.{open_fault, opened, place_fault, noted_rule, pick_fault, noted_pick, crossed_at, admissible, pushed, overlaid, copy_fault};
ghost use Rattle.record.specs.View.{view};

use crate::docket::Docket;
use crate::problem::on_sheet;
use crate::state::Record;
use arrayvec::ArrayVec;
use terms::line::Line;
use terms::refusal::Refusal;
use terms::scope::{NO_SCOPE, Scope};
use terms::{masks, scope};

impl Record {
    // A sheet with no picks, no placed rules and an empty log.
    #[tactic(auto, unfolding(crate::specs::View::view, crate::specs::Calls::opened))]
    pub fn open(sizes: &[u8]) -> Result<Record, Refusal>
        ensures answer { told result ≡ open_fault sizes.now }
        ensures state { IfOk result (λ s. view s ≡ opened sizes.now) }
    {
        Ok(Record {
            docket: Docket::unpicked(sizes)?,
            scopes: [NO_SCOPE; 64],
            crossed: [0; 16],
            log: ArrayVec::new(),
        })
    }

    // Notes the rule with its questions.
    #[tactic(auto, unfolding(crate::specs::View::view, crate::specs::Calls::place_fault, crate::specs::Calls::noted_rule))]
    pub fn place(&mut self, rule: u8, scope: Scope) -> Result<(), Refusal>
        ensures answer { told result ≡ place_fault (view self.old) rule scope }
        ensures after { view self.new ≡ unless (told result) (view self.old) (noted_rule (view self.old) rule scope) }
    {
        if rule >= 64 {
            return Err(Refusal::NoSuchRule { rule });
        }
        if !on_sheet(scope, self.docket.count) {
            return Err(Refusal::RuleOffSheet { rule });
        }
        if masks::has_rule(self.docket.placed, rule) {
            return Err(Refusal::PlacementStands { rule });
        }
        self.docket.placed = masks::with_rule(self.docket.placed, rule);
        self.scopes[rule as usize] = scope;
        Ok(())
    }

    // Notes the pick.
    #[tactic(auto, unfolding(crate::specs::View::view, crate::specs::Calls::pick_fault, crate::specs::Calls::noted_pick))]
    pub fn pick(&mut self, question: u8, option: u8) -> Result<(), Refusal>
        ensures answer { told result ≡ pick_fault (view self.old) question option }
        ensures after { view self.new ≡ unless (told result) (view self.old) (noted_pick (view self.old) question option) }
    {
        if question >= self.docket.count {
            return Err(Refusal::NoSuchQuestion { question });
        }
        if option >= self.docket.size(question) {
            return Err(Refusal::NoSuchOption { question });
        }
        if self.docket.pick(question).is_some() {
            return Err(Refusal::PickStands { question });
        }
        self.docket = self.docket.with_pick(question as usize, option);
        Ok(())
    }

    // Whether the line may come next.
    #[tactic(auto, unfolding(crate::specs::View::view, crate::specs::Calls::admissible))]
    fn admits(&self, line: &Line) -> bool
        ensures { result ≡ admissible (view self.now) line.now }
    {
        let crossed = masks::mask_of(self.crossed, line.question);
        line.option < self.docket.size(line.question)
            && !masks::has(crossed, line.option)
            && masks::within_each(line.reason, self.crossed_at(line.rule))
    }

    // The crossed options at the positions of a placed rule; nothing for any other.
    #[tactic(auto, unfolding(crate::specs::View::view, crate::specs::Calls::crossed_at))]
    fn crossed_at(&self, rule: u8) -> [u32; 4]
        ensures { result ≡ crossed_at (view self.now) rule }
    {
        if self.is_placed(rule) {
            scope::masks_at(self.crossed, self.scope(rule))
        } else {
            [0; 4]
        }
    }

    // Writes the line and crosses its head, if it may come next.
    #[tactic(auto, unfolding(crate::specs::View::view, crate::specs::Calls::pushed))]
    pub fn cross(&mut self, line: &Line) -> bool
        ensures answer { result ≡ admissible (view self.old) line.now }
        ensures after { view self.new ≡ (if result then pushed (view self.old) line.now else view self.old) }
    {
        if !self.admits(line) {
            return false;
        }
        let question = line.question as usize;
        self.crossed[question] = masks::with(self.crossed[question], line.option);
        self.log.push(*line);
        true
    }

    // Copies the log into the caller's lines from the first place; too few of them get the first lines that fit.
    // The lines are the caller's, since nothing here allocates.
    pub fn copy_log(&self, lines: &mut [Line]) -> Result<usize, Refusal>
        ensures answer { told result ≡ copy_fault (view self.now).log lines.old }
        ensures count { IfOk result (λ n. n ≡ length (view self.now).log) }
        ensures buffer { lines.new ≡ overlaid (view self.now).log lines.old }
    {
        let log = self.log();
        let fit = log.len().min(lines.len());
        lines[..fit].copy_from_slice(&log[..fit]);
        if fit < log.len() {
            Err(Refusal::TooFewLines)
        } else {
            Ok(log.len())
        }
    }
}
