// Checksums.
use machine::gate::{Gate, Pair, Variable};
use machine::place::Machine;
use recording::truth::{Ternary, Truth};

/// The checksum of nothing, and what it is multiplied by for each byte.
pub(crate) const START: u64 = 0xcbf2_9ce4_8422_2325;

const TIMES: u64 = 0x0100_0000_01b3;

// The checksum with one more byte.
pub(crate) fn more(sum: u64, byte: u8) -> u64 {
    (sum ^ u64::from(byte)).wrapping_mul(TIMES)
}

/// A truth value that counts as a byte.
pub(crate) trait AsByte: Truth {
    fn as_byte(self) -> u8;
}

impl AsByte for bool {
    fn as_byte(self) -> u8 {
        u8::from(self)
    }
}

impl AsByte for Ternary {
    fn as_byte(self) -> u8 {
        match self {
            Ternary::No => 0,
            Ternary::Lost => 1,
            Ternary::Yes => 2,
        }
    }
}

pub(crate) fn of_cells<T: AsByte>(cells: &[T]) -> u64 {
    cells
        .iter()
        .fold(START, |sum, &cell| more(sum, cell.as_byte()))
}

fn three(sum: u64, a: u8, b: u8, c: u8) -> u64 {
    more(more(more(sum, a), b), c)
}

fn of_gate(sum: u64, gate: Gate) -> u64 {
    match gate {
        Gate::Const(bit) => three(sum, 0, bit as u8, 0),
        Gate::Signal(a) => three(sum, 1, a, 0),
        Gate::Var(a) => three(sum, 2, a, 0),
        Gate::Not(a) => three(sum, 3, a, 0),
        Gate::And(a, b) => three(sum, 4, a, b),
        Gate::Or(a, b) => three(sum, 5, a, b),
    }
}

fn of_variable(sum: u64, variable: Variable) -> u64 {
    match variable {
        Variable::Next(a) => three(sum, 6, a, 0),
        Variable::Until(a, b) => three(sum, 7, a, b),
        Variable::Back(a, start) => three(sum, 8, a, start as u8),
    }
}

fn of_pair(sum: u64, pair: Pair) -> u64 {
    three(sum, 9, pair.from, pair.to)
}

pub(crate) fn of_machine(machine: &Machine) -> u64 {
    let sum = machine
        .gates()
        .iter()
        .fold(START, |sum, &gate| of_gate(sum, gate));
    let sum = machine
        .variables()
        .iter()
        .fold(sum, |sum, &variable| of_variable(sum, variable));
    let sum = machine
        .pairs()
        .iter()
        .fold(sum, |sum, &pair| of_pair(sum, pair));
    more(sum, machine.root())
}
