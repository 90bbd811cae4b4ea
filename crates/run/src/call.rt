/// A call on a sheet.
#[derive(Clone, Copy, PartialEq, Eq, Debug)]
pub enum Call {
    /// code, left and right
    Write(u8, u8, u8),
    Strike,
    Seal,
    Reopen,
    Translate,
    /// on the recording of this number among those lent to be judged
    Judge(usize),
    /// on the recording of this number among the two-valued ones
    WriteOut(usize),
}
