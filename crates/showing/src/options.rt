// Sets of options as text.
ghost use Rattle.std.specs.Prelude.{Some};
ghost use Rattle.showing.specs.Texts.{options_text};

use std::fmt;
use terms::masks::has;

// The options of a mask, rising; '-' for none.
#[derive(Clone, Copy)]
pub struct Options(pub u32);

impl fmt::Display for Options {
    ghost output = { λ x. Some (options_text x.0) };

    fn fmt<W: fmt::Write>(&self, f: &mut fmt::Formatter<W>) -> fmt::Result {
        if self.0 == 0 {
            return f.write_str("-");
        }
        let mut gap = "";
        for option in 0..32u8 {
            if has(self.0, option) {
                write!(f, "{gap}{option}")?;
                gap = " ";
            }
        }
        Ok(())
    }
}
