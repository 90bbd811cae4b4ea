ghost use Rattle.std.specs.Prelude.{◌≡◌};
ghost use Rattle.sheet.specs.Table.{blank};

/// One line of a sheet. A number in it names a lower line, but in `Const` and `Signal`.
#[derive(Clone, Copy, PartialEq, Eq, Debug)]
pub enum Line {
    Const(bool),
    Signal(u8),
    Not(u8),
    And(u8, u8),
    Or(u8, u8),
    Next(u8),
    Until(u8, u8),
    WeakUntil(u8, u8),
    Previous(u8),
    WeakPrevious(u8),
    Since(u8, u8),
    WeakSince(u8, u8),
}

/// What stands for a line where there is none.
impl Default for Line {
    ghost is_default = { λ line. line ≡ blank };

    fn default() -> Line {
        Line::Const(false)
    }
}
