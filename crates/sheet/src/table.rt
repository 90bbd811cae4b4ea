// The sheet's table: which line a code and two operands name, and which lines fit a sheet.
ghost use Rattle.std.specs.Prelude.{◌≡◌};
ghost use Rattle.sheet.specs.Table.{named_line, operands, fits as fits_below};

use crate::line::Line;

impl Line {
    /// The line that this code and these operands name, or none where the code is above 11.
    pub(crate) fn named(code: u8, left: u8, right: u8) -> Option<Line>
        ensures { result ≡ named_line code left right }
    {
        Some(match code {
            0 => Line::Const(left == 1),
            1 => Line::Signal(left),
            2 => Line::Not(left),
            3 => Line::And(left, right),
            4 => Line::Or(left, right),
            5 => Line::Next(left),
            6 => Line::Until(left, right),
            7 => Line::WeakUntil(left, right),
            8 => Line::Previous(left),
            9 => Line::WeakPrevious(left),
            10 => Line::Since(left, right),
            11 => Line::WeakSince(left, right),
            _ => return None,
        })
    }

    /// The operands by which its code names this line.
    pub(crate) fn operands(self) -> (u8, u8)
        ensures { result ≡ operands self }
    {
        match self {
            Line::Const(value) => (u8::from(value), 0),
            Line::Signal(only)
            | Line::Not(only)
            | Line::Next(only)
            | Line::Previous(only)
            | Line::WeakPrevious(only) => (only, 0),
            Line::And(left, right)
            | Line::Or(left, right)
            | Line::Until(left, right)
            | Line::WeakUntil(left, right)
            | Line::Since(left, right)
            | Line::WeakSince(left, right) => (left, right),
        }
    }

    /// Whether a sheet of `count` lines has what this line names: signals below 32, lines below `count`.
    pub(crate) fn fits(self, count: usize) -> bool
        ensures { result ≡ fits_below count self }
    {
        match self {
            Line::Const(_) => true,
            Line::Signal(signal) => signal < 32,
            Line::Not(only) | Line::Next(only) | Line::Previous(only) | Line::WeakPrevious(only) =>
                usize::from(only) < count,
            Line::And(left, right)
            | Line::Or(left, right)
            | Line::Until(left, right)
            | Line::WeakUntil(left, right)
            | Line::Since(left, right)
            | Line::WeakSince(left, right) => {
                usize::from(left) < count && usize::from(right) < count
            }
        }
    }
}
