// The signs of a rule text: single characters, told apart by case.
ghost use Rattle.text.specs.Rules.{IsPrefix, IsInfix};

/// The signs that stand before one unit.
#[derive(Clone, Copy)]
pub enum Prefix {
    Not,
    Next,
    Previous,
    WeakPrevious,
    Finally,
    Globally,
    Once,
    Historically,
}

/// The signs that stand between the two units of a pair.
#[derive(Clone, Copy)]
pub enum Infix {
    And,
    Or,
    Implies,
    Until,
    WeakUntil,
    Since,
    WeakSince,
}

impl Prefix {
    /// The prefix of that sign.
    // No `TryFrom`: its error would say nothing, since the reader tells the fault and its place.
    pub fn from_sign(sign: char) -> Option<Prefix>
        ensures { IsPrefix sign result }
    {
        match sign {
            '!' => Some(Prefix::Not),
            'X' => Some(Prefix::Next),
            'Y' => Some(Prefix::Previous),
            'Z' => Some(Prefix::WeakPrevious),
            'F' => Some(Prefix::Finally),
            'G' => Some(Prefix::Globally),
            'O' => Some(Prefix::Once),
            'H' => Some(Prefix::Historically),
            _ => None,
        }
    }
}

impl Infix {
    /// The pair's operator of that sign.
    // No `TryFrom`: as for `Prefix`.
    pub fn from_sign(sign: char) -> Option<Infix>
        ensures { IsInfix sign result }
    {
        match sign {
            '&' => Some(Infix::And),
            '|' => Some(Infix::Or),
            '>' => Some(Infix::Implies),
            'U' => Some(Infix::Until),
            'W' => Some(Infix::WeakUntil),
            'S' => Some(Infix::Since),
            'B' => Some(Infix::WeakSince),
            _ => None,
        }
    }
}
