// Two truth kinds: percent levels, and flags, which are two-valued.
ghost use Rattle.foreign.specs.Flags.{lit};
ghost use Rattle.foreign.specs.Levels.{level, levels};
ghost use Rattle.recording.specs.Kinds.{two};

use recording::truth::{Truth, TwoValued};

/// A brightness in percent, as a truth kind: and takes the darker, or the brighter, not takes what is missing to 100. A
/// number above 100 means 100, so that different levels can mean the same.
#[derive(Clone, Copy, PartialEq, Eq, Debug)]
pub struct Level(pub u8);

#[tactic(auto, using(crate::specs::Levels::same))]
impl Truth for Level {
    ghost kind = { levels };

    ghost means = { λ l. level l.0 };

    fn no() -> Level {
        Level(0)
    }

    fn yes() -> Level {
        Level(100)
    }

    fn and(self, other: Level) -> Level {
        Level(self.0.min(other.0))
    }

    fn or(self, other: Level) -> Level {
        Level(self.0.max(other.0))
    }

    fn not(self) -> Level {
        Level(100u8.saturating_sub(self.0))
    }
}

/// A lamp that is off or on, as a two-valued kind.
#[derive(Clone, Copy, PartialEq, Eq, PartialOrd, Ord, Debug)]
pub enum Flag {
    Off,
    On,
}

impl Truth for Flag {
    ghost kind = { two };

    ghost means = { lit };

    fn no() -> Flag {
        Flag::Off
    }

    fn yes() -> Flag {
        Flag::On
    }

    fn and(self, other: Flag) -> Flag {
        self.min(other)
    }

    fn or(self, other: Flag) -> Flag {
        self.max(other)
    }

    fn not(self) -> Flag {
        match self {
            Flag::Off => Flag::On,
            Flag::On => Flag::Off,
        }
    }
}

impl TwoValued for Flag {
    fn is_yes(self) -> bool {
        self == Self::yes()
    }
}
