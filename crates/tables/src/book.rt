// What a table book answers.
ghost use Rattle.std.specs.Prelude.{◌≡◌};
ghost use Rattle.tables.specs.Table.{run, table_at, table_model, table_reasons};

use crate::rows::Ask;
use crate::table::{TableBook, TableRule};
use books::book::{Book, Outlook, ReasoningBook, Seat};
use books::owing::owed;
use terms::lookup::item_or;
use terms::scope::{NO_SCOPE, Scope};

// A rule without questions and without rows.
const NO_RULE: TableRule = TableRule {
    scope: NO_SCOPE,
    first: 0,
    count: 0,
};

impl TableBook<'_> {
    // The rule of that number, or one without questions and rows.
    fn rule_at(&self, rule: u8) -> TableRule
        ensures { result ≡ table_at self.now.rules.now rule }
    {
        item_or(self.rules, rule, NO_RULE)
    }

    // The rows of the rule's run.
    #[tactic(auto, using(crate::proofs::TableLaws::run_within), unfolding(crate::specs::Table::run))]
    fn run(&self, rule: u8) -> &[u32]
        ensures { result.now ≡ run self.now.rows.now (table_at self.now.rules.now rule) }
    {
        let table = self.rule_at(rule);
        let end = table.first + table.count;
        &self.rows[table.first..end]
    }

    // What those rows are asked about the option in the seat.
    #[tactic(auto, using(crate::proofs::TableLaws::count_within))]
    fn ask(&self, seat: Seat) -> Ask
        ensures count { result.count ≡ (table_at self.now.rules.now seat.rule).scope.count }
        ensures seat { (result.position ≡ seat.position) × (result.option ≡ seat.option) }
    {
        Ask {
            count: self.rule_at(seat.rule).scope.count,
            position: seat.position,
            option: seat.option,
        }
    }
}

#[tactic(auto, using(crate::proofs::TableLaws::table_few, crate::proofs::TableLaws::table_lawful, crate::proofs::TableLaws::run_within, crate::proofs::TableLaws::count_within, std::proofs::lemmas::Bool::Decides::nat_tests), unfolding(crate::specs::Table::table_model))]
impl Book for TableBook<'_> {
    ghost model = { λ b. table_model b.rows.now b.rules.now };

    fn rules(&self) -> u8 {
        self.rules.len() as u8
    }

    fn scope(&self, rule: u8) -> Scope {
        self.rule_at(rule).scope
    }

    fn supports(&self, seat: Seat, masks: [u32; 4]) -> bool {
        let ask = self.ask(seat);
        seat.position < ask.count && seat.option < 32 && ask.supported(self.run(seat.rule), masks)
    }

    fn lawful(&self) {}
}

#[tactic(auto, using(crate::proofs::TableLaws::run_within, crate::proofs::TableLaws::count_within, crate::proofs::NoteLaws::reason_owed_table, crate::proofs::NoteLaws::reason_not_owed_table, crate::proofs::NoteLaws::table_reasonable))]
impl ReasoningBook for TableBook<'_> {
    ghost reasons = { λ b. table_reasons b.rows.now b.rules.now };

    fn reason(&self, seat: Seat, outlook: Outlook) -> [u32; 4] {
        if !owed(self, seat, outlook) {
            return [0; 4];
        }
        self.ask(seat).reason(self.run(seat.rule), outlook)
    }

    fn reasonable(&self) {}
}
