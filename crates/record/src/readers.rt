// Reading a problem and a record.
#![tactic(auto, unfolding(crate::specs::View::view, crate::specs::Calls::standing_each))]

ghost use Rattle.std.specs.Prelude.{◌≡◌, ◌≤◌, length, None, slice_index, slice_index_or};
ghost use Rattle.terms.specs.Masks.{has, declared_each};
ghost use Rattle.record.specs.Calls.{standing_each};
ghost use Rattle.record.specs.State.{unscoped};
ghost use Rattle.record.specs.View.{view};

use crate::docket::Docket;
use crate::state::Record;
use terms::line::Line;
use terms::lookup::item_or;
use terms::masks;
use terms::scope::{NO_SCOPE, Scope};

impl Docket {
    // How many questions there are.
    pub fn count(&self) -> u8
        ensures { result ≡ self.now.count }
    {
        self.count
    }

    // A question's size; 0 past the last question.
    pub fn size(&self, question: u8) -> u8
        ensures { result ≡ slice_index self.now.sizes question }
    {
        item_or(&self.sizes, question, 0)
    }

    // A question's pick.
    pub fn pick(&self, question: u8) -> Option<u8>
        ensures { result ≡ slice_index_or self.now.picks question None }
    {
        item_or(&self.picks, question, None)
    }

    // The placed rules: bit r is rule r.
    pub fn placed(&self) -> u64
        ensures { result ≡ self.now.placed }
    {
        self.placed
    }
}

impl Record {
    // The problem that the sheet is about.
    pub fn docket(&self) -> Docket
        ensures { result ≡ self.now.docket }
    {
        self.docket
    }

    // Whether the rule is placed.
    pub fn is_placed(&self, rule: u8) -> bool
        ensures { result ≡ has (view self.now).placed rule }
    {
        masks::has_rule(self.docket.placed, rule)
    }

    // A rule's questions as they were noted; none past rule 63.
    pub fn scope(&self, rule: u8) -> Scope
        ensures { result ≡ slice_index_or (view self.now).scopes rule unscoped }
    {
        item_or(&self.scopes, rule, NO_SCOPE)
    }

    // The declared options, question by question.
    pub fn declared(&self) -> [u32; 16]
        ensures { result ≡ declared_each (view self.now).count (view self.now).sizes }
    {
        masks::declared_each(self.docket.count, self.docket.sizes)
    }

    // The standing options, question by question: declared and not crossed.
    pub fn standing(&self) -> [u32; 16]
        ensures { result ≡ standing_each (view self.now) }
    {
        masks::less_each(self.declared(), self.crossed)
    }

    // How many lines the log has.
    pub fn lines(&self) -> usize
        ensures count { result ≡ length (view self.now).log }
        ensures room { result ≤ 512 }
    {
        self.log.len()
    }

    // The log, from its first line.
    pub fn log(&self) -> &[Line]
        ensures { result.now ≡ (view self.now).log }
    {
        self.log.as_slice()
    }
}
