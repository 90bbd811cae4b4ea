// Cells that a C caller lends as bytes.
ghost use Rattle.std.specs.Prelude.{◌≡◌};
ghost use Rattle.recording.specs.Kinds.{three};
ghost use Rattle.yungaslid.specs.Levels.{level, byte};
ghost use Rattle.yungaslid.specs.Cells.{means as cell_means, cell};

use recording::truth::{Ternary, Truth};

pub mod tape;

/// A truth value of the three-valued kind as a byte: 0 is no, 1 is lost, and any other is yes.
#[repr(C)]
#[derive(Clone, Copy, PartialEq, Eq, Debug)]
pub struct Cell {
    pub byte: u8,
}

/// And takes the lower byte, or the higher.
impl Truth for Cell {
    ghost kind = { three };

    ghost means = { cell_means };

    fn no() -> Cell {
        Cell { byte: 0 }
    }

    fn yes() -> Cell {
        Cell { byte: 2 }
    }

    fn and(self, other: Cell) -> Cell {
        Cell {
            byte: self.byte.min(other.byte),
        }
    }

    fn or(self, other: Cell) -> Cell {
        Cell {
            byte: self.byte.max(other.byte),
        }
    }

    fn not(self) -> Cell {
        Cell {
            byte: 2u8.saturating_sub(self.byte),
        }
    }
}

/// The cell of a value: 0, 1 or 2.
impl From<Ternary> for Cell {
    ghost from_gives = { λ p c. c ≡ cell p };

    fn from(value: Ternary) -> Cell {
        let byte = match value {
            Ternary::No => 0,
            Ternary::Lost => 1,
            Ternary::Yes => 2,
        };
        Cell { byte }
    }
}

impl Cell {
    // The byte 0, 1 or 2 that means what this one does.
    pub(crate) fn canonical(self) -> u8
        ensures { result ≡ byte (level self.byte) }
    {
        self.byte.min(2)
    }
}
