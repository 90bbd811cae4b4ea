ghost use Rattle.std.specs.Prelude.{◌≡◌, ◌||◌};

use std::ops::{BitOr, Not};

pub mod pass;

/// Which signs a line has. One with none is unused.
#[derive(Clone, Copy, Default, PartialEq, Eq, Debug)]
pub struct Signs {
    pub plus: bool,
    pub minus: bool,
}

impl Signs {
    ghost use Rattle.machine.specs.Working.{is_used, told};

    /// Whether there is a sign.
    pub fn is_used(self) -> bool
        ensures { result ≡ is_used (told self) }
    {
        self.plus | self.minus
    }
}

/// The signs of both.
impl BitOr for Signs {
    type Output = Signs;

    ghost use Rattle.machine.specs.Signs.{Sign};
    ghost use Rattle.machine.specs.Working.{told};

    ghost bitor_gives = { λ a b r. (s : Sign) → told r s ≡ (told a s || told b s) };

    fn bitor(self, other: Signs) -> Signs {
        Signs {
            plus: self.plus | other.plus,
            minus: self.minus | other.minus,
        }
    }
}

/// Each sign turned into the opposite.
impl Not for Signs {
    type Output = Signs;

    ghost use Rattle.machine.specs.Signs.{Sign, opposite};
    ghost use Rattle.machine.specs.Working.{told};

    ghost not_gives = { λ a r. (s : Sign) → told r s ≡ told a (opposite s) };

    fn not(self) -> Signs {
        Signs {
            plus: self.minus,
            minus: self.plus,
        }
    }
}
