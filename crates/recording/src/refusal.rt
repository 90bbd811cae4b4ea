ghost use Rattle.std.specs.Prelude.{◌≡◌};
ghost use Rattle.recording.specs.Refusals.{tape_number, wheel_number};

/// Why no tape is made.
#[derive(Clone, Copy, PartialEq, Eq, Debug)]
pub enum TapeRefusal {
    /// a size out of its range, a slice that is not stem + cycle long, or a bit at or above the signal count
    BadTape,
}

impl TapeRefusal {
    /// Its number among the refused calls.
    pub fn number(self) -> u8
        ensures { result ≡ tape_number self }
    {
        match self {
            TapeRefusal::BadTape => 10,
        }
    }
}

/// Why no wheel is made.
#[derive(Clone, Copy, PartialEq, Eq, Debug)]
pub enum WheelRefusal {
    /// the teeth, the gap or the start out of its range
    BadWheel,
}

impl WheelRefusal {
    /// Its number among the refused calls.
    pub fn number(self) -> u8
        ensures { result ≡ wheel_number self }
    {
        match self {
            WheelRefusal::BadWheel => 11,
        }
    }
}
