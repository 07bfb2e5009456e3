// What stands on a sheet, as text.
ghost use Rattle.std.specs.Prelude.{Some};
ghost use Rattle.showing.specs.Texts.{overview_text};

use crate::options::Options;
use std::fmt;

// The standing options of a sheet's questions, one group a question: its sixteen masks by value, as a sheet answers them
// without a heap, and how many questions there are.
#[derive(Clone, Copy)]
pub struct Overview {
    pub count: u8,
    pub masks: [u32; 16],
}

impl fmt::Display for Overview {
    ghost output = { λ x. Some (overview_text x.count x.masks) };

    fn fmt<W: fmt::Write>(&self, f: &mut fmt::Formatter<W>) -> fmt::Result {
        let first = Options(self.masks[0]);
        write!(f, "{first}")?;
        for mask in &self.masks[1..usize::from(self.count.clamp(1, 16))] {
            let options = Options(*mask);
            write!(f, " / {options}")?;
        }
        Ok(())
    }
}
