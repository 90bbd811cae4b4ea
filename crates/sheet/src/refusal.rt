ghost use Rattle.std.specs.Prelude.{◌≡◌};
ghost use Rattle.sheet.specs.Refusals.{number_of};

/// Why a sheet refuses a call. It then stays as it was.
#[derive(Clone, Copy, PartialEq, Eq, Debug)]
pub enum Refusal {
    /// the code is above 11
    Code,
    /// an operand is against the table of the sheet
    Operand,
    /// there are 64 lines already
    Full,
    /// there is no line to strike or to seal
    Empty,
}

impl Refusal {
    /// Its number among the refused calls.
    pub fn number(self) -> u8
        ensures { result ≡ number_of self }
    {
        match self {
            Refusal::Code => 1,
            Refusal::Operand => 2,
            Refusal::Full => 3,
            Refusal::Empty => 4,
        }
    }
}
