// Settling: pick lines first, then rounds over the placed rules until one crosses nothing.
ghost use Rattle.std.specs.Prelude.{◌≡◌, true, not, length, ◌==◌};
ghost use Rattle.terms.specs.Masks.{has};
ghost use Rattle.record.specs.Calls.{standing_each};
ghost use Rattle.record.specs.View.{view};
ghost use Rattle.sheet.specs.Settle.{upto, cross_other, pick_lines, visit_option, visit_position, visit_rule, round, settled};
ghost use Rattle.sheet.specs.Valid.{Valid};
ghost use Rattle.sheet.specs.Closed.{Closed, Greatest};

use crate::sheet::Sheet;
use books::book::{Book, Outlook, ReasoningBook, Seat};
use record::state::Record;
use terms::line::{Kind, Line};
use terms::{masks, scope};

// Crosses a standing option of a picked question, unless it is the pick.
fn cross_other(state: &mut Record, question: u8, picked: u8, option: u8)
    ensures { view state.new ≡ cross_other question picked option (view state.old) }
{
    let standing = masks::mask_of(state.standing(), question);
    if !masks::has(standing, option) || option == picked {
        return;
    }
    let line = Line {
        kind: Kind::Pick.into(),
        rule: 0,
        question,
        option,
        reason: [0; 4],
    };
    let _ = state.cross(&line);
}

// Crosses every standing option of a picked question but the pick.
#[tactic(auto, using(crate::proofs::Steps::upto_more), unfolding(crate::specs::Settle::upto))]
fn cross_others(state: &mut Record, question: u8, picked: u8)
    ensures { view state.new ≡ upto (cross_other question picked) 32 (view state.old) }
{
    for option in 0..32u8 {
        cross_other(state, question, picked, option);
    }
}

// Writes the pick lines, question by question.
#[tactic(auto, using(crate::proofs::Steps::upto_more, crate::proofs::Steps::question_picked, crate::proofs::Steps::question_unpicked), unfolding(crate::specs::Settle::upto, crate::specs::Settle::pick_lines))]
fn write_picks(state: &mut Record)
    ensures { view state.new ≡ pick_lines (view state.old) }
{
    for question in 0..16u8 {
        if let Some(picked) = state.docket().pick(question) {
            cross_others(state, question, picked);
        }
    }
}

// Crosses the option in its seat, at a placed rule, if it stands and has no support under the masks of the moment.
// The record is lent apart from its book: that a step leaves the book alone then needs no clause.
fn visit_option<B: ReasoningBook>(book: &B, state: &mut Record, seat: Seat)
    requires { has (view state.old).placed seat.rule ≡ true }
    ensures { view state.new ≡ visit_option (B.Book.model book.now) (B.reasons book.now) seat.rule seat.position seat.option (view state.old) }
{
    book.reasonable();
    let questions = state.scope(seat.rule);
    let all = state.standing();
    let here = scope::mask_at(all, questions, seat.position as usize);
    if !masks::has(here, seat.option) {
        return;
    }
    let standing = scope::masks_at(all, questions);
    if book.supports(seat, standing) {
        return;
    }
    let declared = scope::masks_at(state.declared(), questions);
    let reason = book.reason(seat, Outlook { declared, standing });
    let line = Line {
        kind: Kind::Rule.into(),
        rule: seat.rule,
        question: questions.questions[seat.position as usize],
        option: seat.option,
        reason,
    };
    let _ = state.cross(&line);
}

#[tactic(auto, using(crate::proofs::Steps::upto_more), unfolding(crate::specs::Settle::upto, crate::specs::Settle::visit_position))]
fn visit_position<B: ReasoningBook>(book: &B, state: &mut Record, rule: u8, position: u8)
    requires { has (view state.old).placed rule ≡ true }
    ensures { view state.new ≡ visit_position (B.Book.model book.now) (B.reasons book.now) rule position (view state.old) }
{
    for option in 0..32u8 {
        let seat = Seat {
            rule,
            position,
            option,
        };
        visit_option(book, state, seat);
    }
}

#[tactic(auto, using(crate::proofs::Steps::upto_more, crate::proofs::Steps::rule_placed, crate::proofs::Steps::rule_absent), unfolding(crate::specs::Settle::upto))]
fn visit_rule<B: ReasoningBook>(book: &B, state: &mut Record, rule: u8)
    ensures { view state.new ≡ visit_rule (B.Book.model book.now) (B.reasons book.now) rule (view state.old) }
{
    if !state.is_placed(rule) {
        return;
    }
    let positions = state.scope(rule).count.min(4);
    for position in 0..positions {
        visit_position(book, state, rule, position);
    }
}

// One round over the placed rules; says whether it crossed anything.
#[tactic(auto, using(crate::proofs::Steps::upto_more), unfolding(crate::specs::Settle::upto, crate::specs::Settle::round))]
fn go_round<B: ReasoningBook>(book: &B, state: &mut Record) -> bool
    ensures after { view state.new ≡ round (B.Book.model book.now) (B.reasons book.now) (view state.old) }
    ensures answer { result ≡ not (length (view state.new).log == length (view state.old).log) }
{
    let before = state.lines();
    for rule in 0..64u8 {
        visit_rule(book, state, rule);
    }
    state.lines() != before
}

// That the log is valid is a premise and no ghost field of the sheet: such a field has to be a fact with one proof,
// and a line may follow from the rules in two ways.
impl<'a, B: ReasoningBook> Sheet<'a, B> {
    // Crosses what no longer goes together. It asks the book only about standing options and ends after a round that
    // crosses nothing. From a valid log, what stands is then closed, and every other closed set lies within it.
    pub fn settle(&mut self)
        ensures after { self.new ≡ record { book = self.old.book; state = settled (B.Book.model self.old.book) (B.reasons self.old.book) self.old.state } }
        ensures still { round (B.Book.model self.old.book) (B.reasons self.old.book) self.new.state ≡ self.new.state }
        ensures valid { Valid (B.Book.model self.old.book) self.old.state → Valid (B.Book.model self.old.book) self.new.state }
        ensures closed { Valid (B.Book.model self.old.book) self.old.state → Closed (B.Book.model self.old.book) self.new.state (standing_each self.new.state) }
        ensures greatest { Valid (B.Book.model self.old.book) self.old.state → Greatest (B.Book.model self.old.book) self.new.state (standing_each self.new.state) }
    {
        self.book.lawful();
        self.book.reasonable();
        write_picks(&mut self.state);
        'rounds: while go_round(self.book, &mut self.state) {}
    }
}
