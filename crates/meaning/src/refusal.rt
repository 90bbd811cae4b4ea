ghost use Rattle.std.specs.Prelude.{◌≡◌};
ghost use Rattle.meaning.specs.Refusals.{number_of};

/// Why a sheet is not judged. The cells then stay as they were.
#[derive(Clone, Copy, PartialEq, Eq, Debug)]
pub enum Refusal {
    /// a line, used or not, names a signal that the recording does not have
    NoSignal,
    /// there are fewer cells than lines times samples
    TooFewCells,
}

impl Refusal {
    /// Its number among the refused calls.
    pub fn number(self) -> u8
        ensures { result ≡ number_of self }
    {
        match self {
            Refusal::NoSignal => 5,
            Refusal::TooFewCells => 6,
        }
    }
}
