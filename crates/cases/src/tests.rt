// The cases that are run, on the books and sheets themselves.
ghost use Rattle.std.specs.Prelude.{◌≡◌, ◌≤◌, length};

use books::book::{Outlook, ReasoningBook, Seat};
use books::pair::Pair;
use differs::differ::DifferBook;
use gaps::gap::{GapBook, GapRule};
use sheet::sheet::Sheet;
use sitting::run::run as run_sitting;
use std::process::Abort;
use std::test::Fail;
use tables::table::{TableBook, TableRule};
use terms::line::{BLANK, LOG_LINES};
use terms::refusal::Refusal;
use terms::scope::Scope;
use wording::numbers::numbers;

fn two(a: u8, b: u8) -> Scope {
    Scope {
        count: 2,
        questions: [a, b, 0, 0],
    }
}

// The number and the place of a refusal; nothing of a granted call.
fn refused<T: Drop>(r: Result<T, Refusal>) -> Option<(u8, usize)> {
    r.err().map(|refusal| (refusal.number(), refusal.place()))
}

// A call that has to be granted.
fn granted<T>(r: Result<T, Refusal>) -> Result<T, Fail> {
    r.map_err(|_| Fail::new("refused"))
}

fn opens(sizes: &[u8]) -> Option<(u8, usize)> {
    let book = DifferBook::empty();
    refused(Sheet::open(&book, sizes))
}

#[test]
fn sixteen_questions_open_and_seventeen_do_not(rt: HostRuntime) {
    assert_eq!(rt; opens(&[32; 16]), None);
    assert_eq!(rt; opens(&[32; 17]), Some((1, 0)));
    assert_eq!(rt; opens(&[]), Some((1, 0)));
    assert_eq!(rt; opens(&[3, 33, 0]), Some((2, 1)));
}

fn distance(k: i16) -> Option<(u8, usize)> {
    let rules = [GapRule {
        scope: two(0, 1),
        distance: k,
    }];
    refused(GapBook::new(&rules))
}

#[test]
fn distances_reach_to_31(rt: HostRuntime) {
    assert_eq!(rt; distance(31), None);
    assert_eq!(rt; distance(-31), None);
    assert_eq!(rt; distance(32), Some((6, 0)));
    assert_eq!(rt; distance(-32), Some((6, 0)));
}

#[test]
fn an_empty_run_crosses_everything_on_its_questions(rt: HostRuntime) -> Result<(), Fail> {
    let rules = [TableRule {
        scope: two(0, 2),
        first: 1,
        count: 0,
    }];
    let rows = [0x0101];
    let book = granted(TableBook::new(&rows, &rules))?;
    let mut sheet = granted(Sheet::open(&book, &[3, 3, 2]))?;
    assert_eq!(rt; refused(sheet.place(0)), None);
    sheet.settle();
    let masks = sheet.overview();
    assert_eq!(rt; (masks[0], masks[1], masks[2]), (0, 7, 0));
    Ok(())
}

fn run(first: usize, count: usize) -> TableRule {
    TableRule {
        scope: two(0, 1),
        first,
        count,
    }
}

fn rows_taken<'a>(rows: &'a [u32], rules: &'a [TableRule]) -> Option<(u8, usize)> {
    refused(TableBook::new(rows, rules))
}

#[test]
fn rows_hold_options_and_nothing_past_the_last_position(rt: HostRuntime) {
    assert_eq!(rt; rows_taken(&[0x1f1f], &[run(0, 1)]), None);
    assert_eq!(rt; rows_taken(&[0x010000], &[run(0, 1)]), Some((5, 0)));
    assert_eq!(rt;
        rows_taken(&[0x2000], &[run(0, 0), run(0, 1)]),
        Some((5, 1))
    );
    assert_eq!(rt; rows_taken(&[0, 0x010000], &[run(0, 1)]), None);
}

#[test]
fn runs_stay_within_the_rows(rt: HostRuntime) {
    assert_eq!(rt; rows_taken(&[0], &[run(1, 0)]), None);
    assert_eq!(rt; rows_taken(&[0], &[run(1, 1)]), Some((5, 0)));
    assert_eq!(rt; rows_taken(&[0], &[run(usize::MAX, 2)]), Some((5, 0)));
}

#[test]
fn a_rule_off_the_sheet_is_not_placed(rt: HostRuntime) -> Result<(), Fail> {
    let rules = [two(14, 15)];
    let book = granted(DifferBook::new(&rules))?;
    let mut sheet = granted(Sheet::open(&book, &[2; 15]))?;
    assert_eq!(rt; refused(sheet.place(0)), Some((10, 0)));
    assert_eq!(rt; refused(sheet.place(1)), Some((9, 1)));
    Ok(())
}

#[test]
fn undeclared_standing_options_give_an_empty_reason(rt: HostRuntime) -> Result<(), Fail> {
    let rules = [two(0, 1)];
    let book = granted(DifferBook::new(&rules))?;
    let seat = Seat {
        rule: 0,
        position: 0,
        option: 1,
    };
    let within = Outlook {
        declared: [7, 7, 0, 0],
        standing: [7, 2, 0, 0],
    };
    let beyond = Outlook {
        declared: [7, 5, 0, 0],
        standing: [7, 2, 0, 0],
    };
    assert_eq!(rt; book.reason(seat, within), [0, 5, 0, 0]);
    assert_eq!(rt; book.reason(seat, beyond), [0; 4]);
    Ok(())
}

// The book's kinds are parameters, so that each pair lends from one lifetime.
fn settles_as_counted<'a, F: ReasoningBook, S: ReasoningBook>(
    rt: &impl Abort,
    first: &'a F,
    second: &'a S,
) -> Result<(), Fail> {
    let book = granted(Pair::new(first, second))?;
    let mut sheet = granted(Sheet::open(&book, &[3; 3]))?;
    granted(sheet.place(0))?;
    granted(sheet.place(1))?;
    granted(sheet.place(2))?;
    sheet.settle();
    let masks = sheet.overview();
    assert_eq!(rt; (masks[0], masks[1], masks[2], masks[3]), (3, 3, 6, 0));
    let mut few = [BLANK; 2];
    assert_eq!(rt; refused(sheet.copy_log(&mut few)), Some((14, 0)));
    assert_eq!(rt; (few[1].rule, few[1].question, few[1].option), (1, 2, 0));
    let mut lines = [BLANK; 4];
    assert_eq!(rt; granted(sheet.copy_log(&mut lines))?, 3);
    assert_eq!(rt;
        (lines[0].rule, lines[0].question, lines[0].option),
        (1, 1, 2)
    );
    assert_eq!(rt;
        (lines[2].rule, lines[2].question, lines[2].option),
        (0, 0, 2)
    );
    assert_eq!(rt; lines[2].reason, [0, 4, 0, 0]);
    assert_eq!(rt;
        (lines[3].kind, lines[3].rule, lines[3].question),
        (0, 0, 0)
    );
    Ok(())
}

fn paired<'a, T: ReasoningBook, G: ReasoningBook, D: ReasoningBook>(
    rt: &impl Abort,
    table: &'a T,
    gap: &'a G,
    differ: &'a D,
) -> Result<(), Fail> {
    let first = granted(Pair::new(table, gap))?;
    settles_as_counted(rt, &first, differ)
}

#[test]
fn the_sample_settles_as_it_was_counted(rt: HostRuntime) -> Result<(), Fail> {
    let rows = [0, 0x0100, 0x0101, 0x0202];
    let tables = [TableRule {
        scope: two(0, 1),
        first: 0,
        count: 4,
    }];
    let gaps = [GapRule {
        scope: two(1, 2),
        distance: 1,
    }];
    let differs = [two(0, 2)];
    let table = granted(TableBook::new(&rows, &tables))?;
    let gap = granted(GapBook::new(&gaps))?;
    let differ = granted(DifferBook::new(&differs))?;
    paired(&rt, &table, &gap, &differ)
}

// How many lines the log has, by a copy of it into 512: that it is refused is proved never to happen, of any sheet.
fn line_count<B: ReasoningBook>(sheet: &Sheet<'_, B>) -> usize
    ensures { result ≡ length sheet.now.state.log }
{
    let mut lines = [BLANK; LOG_LINES];
    match sheet.copy_log(&mut lines) {
        Ok(count) => count,
        Err(_) => unreachable(),
    }
}

fn four_from(first: u8) -> TableRule
    requires { first ≤ 12 }
{
    TableRule {
        scope: Scope {
            count: 4,
            questions: [first, first + 1, first + 2, first + 3],
        },
        first: 0,
        count: 0,
    }
}

#[test]
fn a_log_of_every_option_fits_512_lines(rt: HostRuntime) -> Result<(), Fail> {
    let rules = [four_from(0), four_from(4), four_from(8), four_from(12)];
    let book = granted(TableBook::new(&[], &rules))?;
    let mut sheet = granted(Sheet::open(&book, &[32; 16]))?;
    for rule in 0..4u8 {
        assert_eq!(rt; refused(sheet.place(rule)), None);
    }
    sheet.settle();
    assert_eq!(rt; line_count(&sheet), 512);
    Ok(())
}

// Words are read as numbers, up to the first that writes none.
#[test]
fn words_are_read_as_numbers(rt: HostRuntime) -> Result<(), Fail> {
    let Ok(read) = numbers(rt.alloc(), &["7", "255"])? else {
        return Err(Fail::new("no numbers"));
    };
    assert_eq!(rt; read.as_slice(), [7, 255].as_slice());
    let Err(word) = numbers(rt.alloc(), &["7", "256", "x"])? else {
        return Err(Fail::new("numbers"));
    };
    assert_eq!(rt; word, "256");
    Ok(())
}

// The sample as a sitting, from its text to what is told.
#[test]
fn the_sample_is_told_as_it_was_counted(rt: HostRuntime) -> Result<(), Fail> {
    let told = run_sitting(
        rt.alloc(),
        "table 0 1 : 0 0, 0 1, 1 1, 2 2\ngap 1 2 1\ndiffer 0 2\nopen 3 3 3\nplace 0\nplace 1\nplace 2\nsettle\n",
    )?;
    assert!(rt; told.sound);
    assert_eq!(rt;
        told.text.as_str(),
        "table 0 1 : 0 0, 0 1, 1 1, 2 2: noted\ngap 1 2 1: noted\ndiffer 0 2: noted\nopen 3 3 3: 3 questions, 3 rules\nplace 0: done\nplace 1: done\nplace 2: done\nsettle: 3 lines\nclosing overview: 0 1 / 0 1 / 1 2\nlog 0: rule 1 crosses 1 2\nlog 1: rule 1 crosses 2 0\nlog 2: rule 0 crosses 0 2 because 1:2\n"
    );
    Ok(())
}

// What cannot be taken is told, and the rest goes on.
#[test]
fn bad_lines_are_told_and_passed_over(rt: HostRuntime) -> Result<(), Fail> {
    let told = run_sitting(rt.alloc(), "place 0\ngap 0 1 32\nopen 3 3\n")?;
    assert!(rt; !told.sound);
    assert_eq!(rt;
        told.text.as_str(),
        "line 1: no sheet is open; expected: a rule of the book, or open SIZE..\ngap 0 1 32: noted\nline 3: refused 6 at 0: a gap's distance is not from -31 to 31\nno sheet was opened\n"
    );
    Ok(())
}
