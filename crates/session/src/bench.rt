use recording::gapped::GappedTape;
use recording::tape::Tape;
use recording::truth::Ternary;
use recording::wheel::Wheel;

pub mod answering;
pub mod checking;
pub mod making;

/// The recording of a script.
#[derive(Clone, Copy)]
pub enum Recorded {
    Plain(Tape),
    Gapped(GappedTape),
    Turning(Wheel),
}

/// How many cells and rows are lent to a call, or all where there are not so many.
#[derive(Clone, Copy)]
pub struct Lending {
    pub cells: u128,
    pub rows: u128,
}

/// What sheets are judged and runs are written out and checked on: at most one recording; cells of each truth kind to
/// judge with, cells and rows to write runs out with, and how many of them are lent.
#[derive(Drop)]
pub struct Bench {
    pub recorded: Option<Recorded>,
    pub flags: Vec<bool>,
    pub levels: Vec<Ternary>,
    pub bits: Vec<bool>,
    pub rows: Vec<u64>,
    pub lent: Lending,
}
