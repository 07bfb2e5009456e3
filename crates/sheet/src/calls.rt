// Opening a sheet, noting rules and picks, and reading what stands.
ghost use Rattle.std.specs.Prelude.{◌≡◌, ◌≤◌, length, None, IfOk, slice_index};
ghost use Rattle.record.specs.Told.{told, unless};
ghost use Rattle.record.specs.Calls.{open_fault, opened, noted_rule, pick_fault, noted_pick, standing_each, overlaid, copy_fault};
ghost use Rattle.record.specs.Sound.{Sound};
ghost use Rattle.sheet.specs.Calls.{rule_fault, question_fault};
ghost use Rattle.sheet.specs.Valid.{Valid};

use crate::sheet::Sheet;
use books::book::{Book, ReasoningBook};
use record::docket::Docket;
use record::state::Record;
use terms::line::Line;
use terms::masks::mask_of;
use terms::refusal::Refusal;

// Each call says of itself that it keeps a valid log valid; why the sheet does not is said at `settle`.
impl<'a, B: ReasoningBook> Sheet<'a, B> {
    // A sheet with no picks, no placed rules and an empty log, which is valid.
    #[tactic(auto, using(crate::proofs::Notes::open_valid))]
    pub fn open(book: &'a B, sizes: &[u8]) -> Result<Sheet<'a, B>, Refusal>
        ensures answer { told result ≡ open_fault sizes.now }
        ensures sheet { IfOk result (λ s. s ≡ record { book = book.now; state = opened sizes.now }) }
        ensures valid { IfOk result (λ s. Valid (B.Book.model book.now) s.state) }
    {
        let state = Record::open(sizes)?;
        Ok(Sheet { book, state })
    }

    // Notes the rule with its questions.
    pub fn place(&mut self, rule: u8) -> Result<(), Refusal>
        ensures answer { told result ≡ rule_fault (B.Book.model self.old.book) self.old.state rule }
        ensures after { self.new ≡ record { book = self.old.book; state = unless (told result) self.old.state (noted_rule self.old.state rule ((B.Book.model self.old.book).scope rule)) } }
        ensures valid { Valid (B.Book.model self.old.book) self.old.state → Valid (B.Book.model self.old.book) self.new.state }
    {
        self.book.lawful();
        if rule >= self.book.rules() {
            return Err(Refusal::NoSuchRule { rule });
        }
        let scope = self.book.scope(rule);
        self.state.place(rule, scope)
    }

    // Notes the pick.
    pub fn pick(&mut self, question: u8, option: u8) -> Result<(), Refusal>
        ensures answer { told result ≡ pick_fault self.old.state question option }
        ensures after { self.new ≡ record { book = self.old.book; state = unless (told result) self.old.state (noted_pick self.old.state question option) } }
        ensures valid { Valid (B.Book.model self.old.book) self.old.state → Valid (B.Book.model self.old.book) self.new.state }
    {
        self.state.pick(question, option)
    }

    // The standing options of one question.
    #[tactic(auto, unfolding(crate::specs::Calls::question_fault))]
    pub fn standing(&self, question: u8) -> Result<u32, Refusal>
        ensures answer { told result ≡ question_fault self.now.state question }
        ensures mask { IfOk result (λ m. m ≡ slice_index (standing_each self.now.state) question) }
    {
        if question >= self.docket().count() {
            return Err(Refusal::NoSuchQuestion { question });
        }
        Ok(mask_of(self.overview(), question))
    }

    // The standing options of every question, and nothing past the last.
    pub fn overview(&self) -> [u32; 16]
        ensures { result ≡ standing_each self.now.state }
    {
        self.state.standing()
    }

    // The problem that the sheet is about.
    #[tactic(auto, unfolding(record::specs::View::view))]
    pub fn docket(&self) -> Docket
        ensures count { result.count ≡ self.now.state.count }
        ensures sizes { result.sizes ≡ self.now.state.sizes }
        ensures picks { result.picks ≡ self.now.state.picks }
        ensures placed { result.placed ≡ self.now.state.placed }
    {
        self.state.docket()
    }

    // The log, from its first line. What is true of every sheet at all times is said here, where a caller can ask for it
    // of any: a clause sees no record, whose facts these are.
    #[tactic(auto, using(record::proofs::RecordLaws::sound_of), unfolding(record::specs::View::view))]
    pub fn log(&self) -> &[Line]
        ensures lines { result.now ≡ self.now.state.log }
        ensures sound { Sound self.now.state }
        ensures scopes { length self.now.state.scopes ≡ 64 }
    {
        self.state.log()
    }

    // Copies the log into the caller's lines and answers how many there are; too few places get the first lines that fit.
    // For a caller who keeps the lines while the sheet goes on; who only reads them is lent `log`. 512 places always do.
    #[tactic(auto, using(record::proofs::LogLaws::fits_all))]
    pub fn copy_log(&self, lines: &mut [Line]) -> Result<usize, Refusal>
        ensures answer { told result ≡ copy_fault self.now.state.log lines.old }
        ensures count { IfOk result (λ n. n ≡ length self.now.state.log) }
        ensures buffer { lines.new ≡ overlaid self.now.state.log lines.old }
        ensures room { 512 ≤ length lines.old → told result ≡ None }
    {
        self.state.copy_log(lines)
    }
}
