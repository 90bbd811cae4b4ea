// Why a rule text is refused, and where.
ghost use Rattle.std.specs.Prelude.{◌≡◌, ℕ, Result};
ghost use Rattle.text.specs.declared.fault.Fault.TheVariants.{Sheet};
ghost use Rattle.text.specs.declared.fault.Placed.{Placed};
ghost use Rattle.text.specs.Faults.{fault_number, fault_place, placed};

use sheet::refusal::Refusal;

/// The first fault of a rule text.
#[derive(Clone, Copy, PartialEq, Eq, Debug)]
pub enum Fault {
    /// the byte there cannot stand there
    Byte { at: usize },
    /// the text ends early
    Early { at: usize },
    /// the name that begins there is not known
    Unknown { at: usize },
    /// the sign there would open level 33
    Deep { at: usize },
    /// the rule has ended before that byte
    After { at: usize },
    /// the text is over 4,096 bytes
    Long,
    /// the sheet refused a line of the sign, digit or name there
    Sheet { refusal: Refusal, at: usize },
}

impl Fault {
    /// Its number among the refused calls; a refusal of the sheet keeps its own.
    pub fn number(self) -> u8
        ensures { result ≡ fault_number self }
    {
        match self {
            Fault::Byte { .. } => 12,
            Fault::Early { .. } => 13,
            Fault::Unknown { .. } => 14,
            Fault::Deep { .. } => 15,
            Fault::After { .. } => 16,
            Fault::Long => 17,
            Fault::Sheet { refusal, .. } => refusal.number(),
        }
    }

    /// Its place in the text.
    pub fn place(self) -> usize
        ensures { result ≡ fault_place self }
    {
        match self {
            Fault::Byte { at }
            | Fault::Early { at }
            | Fault::Unknown { at }
            | Fault::Deep { at }
            | Fault::After { at }
            | Fault::Sheet { at, .. } => at,
            Fault::Long => 4096,
        }
    }
}

/// An error, with the place that it arose at.
#[derive(Clone, Copy)]
pub struct Placed<E> {
    pub error: E,
    pub at: usize,
}

/// A result whose error can be given its place.
pub trait Place<T, E> {
    ghost meant: { Self → ℕ → Result T (Placed E) };

    fn at(self, at: usize) -> Result<T, Placed<E>>
        ensures { result ≡ meant self at };
}

impl<T, E> Place<T, E> for Result<T, E> {
    ghost meant = { λ s n. placed s n };

    fn at(self, at: usize) -> Result<T, Placed<E>> {
        self.map_err(|error| Placed { error, at })
    }
}

impl From<Placed<Refusal>> for Fault {
    ghost from_gives = { λ p r. r ≡ Sheet p.error p.at };

    fn from(placed: Placed<Refusal>) -> Fault {
        Fault::Sheet {
            refusal: placed.error,
            at: placed.at,
        }
    }
}
