ghost use Rattle.std.specs.Prelude.{◌≡◌};
ghost use Rattle.checker.specs.Refusals.{number_of};

/// Why a run is not checked.
#[derive(Clone, Copy, PartialEq, Eq, Debug)]
pub enum CheckRefusal {
    /// a gate, used or not, names a signal that the recording does not have
    NoSignal,
    /// there is no row, or there are more than 4,352; or the rows that come again do not fit the recording
    BadShape,
    /// a row has a bit at or above the variable count
    StrayBit,
}

impl CheckRefusal {
    /// Its number among the refused calls.
    pub fn number(self) -> u8
        ensures { result ≡ number_of self }
    {
        match self {
            CheckRefusal::NoSignal => 5,
            CheckRefusal::BadShape => 8,
            CheckRefusal::StrayBit => 9,
        }
    }
}
