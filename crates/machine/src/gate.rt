use meaning::naming::NamesSignal;

/// A gate, read at one position: a bit, a signal, a variable, or an operation on earlier gates.
#[derive(Clone, Copy, PartialEq, Eq, Debug)]
pub enum Gate {
    Const(bool),
    Signal(u8),
    Var(u8),
    Not(u8),
    And(u8, u8),
    Or(u8, u8),
}

impl NamesSignal for Gate {
    ghost use Rattle.machine.specs.Tables.{Names};

    ghost fits = { Names };

    fn signal(self) -> Option<u8> {
        match self {
            Gate::Signal(signal) => Some(signal),
            _ => None,
        }
    }
}

/// What a state variable equals at position t.
#[derive(Clone, Copy, PartialEq, Eq, Debug)]
pub enum Variable {
    /// the gate at t + 1
    Next(u8),
    /// the second gate at t, or else the first at t together with the variable itself at t + 1
    Until(u8, u8),
    /// the bit at 0, and at t + 1 the gate at t
    Back(u8, bool),
}

/// A fairness pair: at infinitely many positions gate `from` is 0 or gate `to` is 1.
#[derive(Clone, Copy, PartialEq, Eq, Debug)]
pub struct Pair {
    pub from: u8,
    pub to: u8,
}
