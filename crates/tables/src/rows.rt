// Rows of a table: position p's option is bits 8p to 8p + 7.
ghost use Rattle.std.specs.Prelude.{◌≡◌, ◌<◌, ◌≤◌};
ghost use Rattle.books.specs.Reasons.{no_reason};
ghost use Rattle.tables.specs.Table.{option_at, fits_at, unfit, sound_at, sound_row, all_rows, some_row, row_supports, note_row, note_rows};

use books::book::Outlook;
use terms::masks::{has, with};

// The option at a position.
fn option_at(row: u32, place: u8) -> u8
    requires { place < 4 }
    ensures { result ≡ option_at row place }
{
    ((row >> (8 * place)) & 0xff) as u8
}

// Whether a rule over `count` questions may have the option at the place: 0 past its last position.
fn sound_at(count: u8, place: u8, option: u8) -> bool
    ensures { result ≡ sound_at count place option }
{
    if place < count {
        option < 32
    } else {
        option == 0
    }
}

// Whether the row has options at its first `count` positions, and 0 past them.
fn sound_row(row: u32, count: u8) -> bool
    ensures { result ≡ sound_row count row }
{
    (0..4u8).all(|place| sound_at(count, place, option_at(row, place)))
}

// Whether every row of the part is sound.
pub fn sound_rows(part: &[u32], count: u8) -> bool
    ensures { result ≡ all_rows (sound_row count) part.now }
{
    part.iter().all(|row| sound_row(*row, count))
}

// What the rows of a rule over `count` questions are asked about an option at a position.
#[derive(Clone, Copy)]
pub struct Ask {
    pub count: u8,
    pub position: u8,
    pub option: u8,
    ghost few: { count ≤ 4 },
}

impl Ask {
    // Whether the row's option may stand at the place: at the position it is the option, elsewhere it is in the mask.
    fn fits_at(self, row: u32, place: u8, masks: [u32; 4]) -> bool
        requires { place < 4 }
        ensures { result ≡ fits_at self.position self.option masks place (option_at row place) }
    {
        let here = option_at(row, place);
        if place == self.position {
            here == self.option
        } else {
            has(masks[usize::from(place)], here)
        }
    }

    // Whether some row of the part has the option at the position and fits the masks elsewhere. That these are loops,
    // left by a label at the first such row, is a rule of this project (docs/DECISIONS.md).
    pub fn supported(self, part: &[u32], masks: [u32; 4]) -> bool
        ensures { result ≡ some_row (row_supports self.count self.position self.option masks) part.now }
    {
        'rows: {
            'row: for row in part {
                for place in 0..self.count {
                    if !self.fits_at(*row, place, masks) {
                        continue 'row;
                    }
                }
                break 'rows true;
            }
            false
        }
    }

    // The lowest position at which the row does not fit.
    fn unfit(self, row: u32, masks: [u32; 4]) -> Option<u8>
        ensures { result ≡ unfit self.count self.position self.option masks row }
    {
        (0..self.count).find(|place| !self.fits_at(row, *place, masks))
    }

    // Puts what the row adds into the reason: its option at the lowest position that does not stand.
    #[tactic(auto, using(crate::proofs::RowLaws::misfit_at, crate::proofs::RowLaws::note_unfit, crate::proofs::RowLaws::note_at, crate::proofs::RowLaws::note_none))]
    fn note_row(self, reason: &mut [u32; 4], row: u32, outlook: Outlook)
        ensures { reason.new ≡ note_row self.count self.position self.option outlook.declared outlook.standing reason.old row }
    {
        if self.unfit(row, outlook.declared).is_some() {
            return;
        }
        if let Some(place) = self.unfit(row, outlook.standing) {
            let mask = &mut reason[usize::from(place)];
            *mask = with(*mask, option_at(row, place));
        }
    }

    // What the rows of the part add up to.
    pub fn reason(self, part: &[u32], outlook: Outlook) -> [u32; 4]
        ensures { result ≡ note_rows self.count self.position self.option outlook.declared outlook.standing no_reason part.now }
    {
        let mut reason = [0; 4];
        for row in part {
            self.note_row(&mut reason, *row, outlook);
        }
        reason
    }
}
