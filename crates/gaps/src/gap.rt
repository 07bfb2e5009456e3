// Rules that want a distance between two options, and the book that holds them.
ghost use Rattle.std.specs.Prelude.{refl};
ghost use Rattle.gaps.specs.Gap.{keeps, far, no_gap};

use books::questions::Ties;
use books::two_book::TwoBook;
use books::two_rule::TwoRule;
use terms::refusal::Refusal;
use terms::scope::{NO_SCOPE, Scope};

// The option at position 0 and the distance come to at most the option at position 1.
#[derive(Clone, Copy)]
pub struct GapRule {
    pub scope: Scope,
    pub distance: i16,
}

impl Ties for GapRule {
    ghost ties = { λ g. g.scope };

    fn scope(&self) -> Scope {
        self.scope
    }
}

impl TwoRule for GapRule {
    ghost NONE = { no_gap };

    ghost pairs = { λ g. keeps g.distance };

    ghost fault = { far };

    const NONE: GapRule = GapRule {
        scope: NO_SCOPE,
        distance: 0,
    };

    fn pairs(&self, low: u8, high: u8) -> bool {
        i32::from(low) + i32::from(self.distance) <= i32::from(high)
    }

    // Refused where the distance is not from -31 to 31.
    fn check(&self, rule: u8) -> Result<(), Refusal> {
        if (-31..=31).contains(&self.distance) {
            Ok(())
        } else {
            Err(Refusal::DistanceOutOfRange { rule })
        }
    }

    ghost nothing = { refl };
}

pub type GapBook<'a> = TwoBook<'a, GapRule>;
