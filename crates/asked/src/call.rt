pub mod printing;
pub mod reading;
pub mod runs;

/// The name of a call.
#[derive(Clone, Copy, PartialEq, Eq, Debug)]
pub enum Verb {
    Write,
    Strike,
    Seal,
    Reopen,
    Translate,
    Tape,
    Gapped,
    Wheel,
    Cells,
    Rows,
    Judge,
    Run,
    Check,
}

/// A call on the sheet, with what it takes.
#[derive(Clone, Copy, PartialEq, Eq, Debug)]
pub enum SheetCall {
    /// code, left and right
    Write(u8, u8, u8),
    Strike,
    Seal,
    Reopen,
    Translate,
    Judge,
    /// writes out the run
    Run,
}

/// The sizes that a tape is asked for with.
#[derive(Clone, Copy, PartialEq, Eq, Debug)]
pub struct TapeSizes {
    pub signals: u128,
    pub stem: u128,
    pub cycle: u128,
}

/// A call on the bench, with what it takes.
#[derive(Drop)]
pub enum BenchCall {
    /// sizes and masks
    Tape(TapeSizes, Vec<u128>),
    /// sizes, masks and lost masks
    Gapped(TapeSizes, Vec<u128>, Vec<u128>),
    /// teeth, gap and start
    Wheel(u128, u128, u128),
    /// how many cells are lent from now on
    Cells(u128),
    /// how many rows are lent from now on
    Rows(u128),
    /// the number of the row that comes after the last, and the rows
    Check(u128, Vec<u128>),
}

/// A call of a script.
#[derive(Drop)]
pub enum Call {
    OnSheet(SheetCall),
    OnBench(BenchCall),
}
