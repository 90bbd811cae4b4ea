// The lines of a rule, written into a draft.
ghost use Rattle.std.specs.Prelude.{◌≡◌, ◌+◌, ◌<◌, [], ◌∷◌, length};
ghost use Rattle.sheet.specs.Sheets.{lines_of};
ghost use Rattle.sheet.specs.Table.{Lower};
ghost use Rattle.text.specs.Guards.{Grown};
ghost use Rattle.text.specs.Rules.{prefix_lines, infix_lines};
ghost use Rattle.text.specs.Steps.{Wrote};

use crate::fault::{Fault, Place};
use crate::sign::{Infix, Prefix};
use sheet::draft::Draft;
use sheet::line::Line;

/// A line, for the token at `at`.
pub(crate) fn put(draft: &mut Draft, at: usize, line: Line) -> Result<u8, Fault>
    requires { Lower (length (lines_of draft.old)) line }
    ensures wrote { Wrote (lines_of draft.old) (lines_of draft.new) (line ∷ []) at result }
    ensures grown { Grown (lines_of draft.old) (lines_of draft.new) }
{
    Ok(draft.push(line).at(at)?)
}

// A line, and then the one that `second` makes of its number.
fn put_two<F: FnOnce(u8) -> Line + Drop>(
    draft: &mut Draft,
    at: usize,
    first: Line,
    second: F,
) -> Result<u8, Fault>
    requires first { Lower (length (lines_of draft.old)) first }
    requires can { F.pre second (length (lines_of draft.old)) }
    requires second { (line : Line) → F.post second (length (lines_of draft.old)) line → Lower (length (lines_of draft.old) + 1) line }
    ensures wrote { (line : Line) → ((l : Line) → F.post second (length (lines_of draft.old)) l → l ≡ line) → Wrote (lines_of draft.old) (lines_of draft.new) (first ∷ line ∷ []) at result }
    ensures grown { Grown (lines_of draft.old) (lines_of draft.new) }
{
    let number = put(draft, at, first)?;
    put(draft, at, second(number))
}

/// A prefix's own lines, over the line of its unit.
pub(crate) fn put_prefix(
    draft: &mut Draft,
    at: usize,
    prefix: Prefix,
    operand: u8,
) -> Result<u8, Fault>
    requires { operand < length (lines_of draft.old) }
    ensures wrote { Wrote (lines_of draft.old) (lines_of draft.new) (prefix_lines prefix operand (length (lines_of draft.old))) at result }
    ensures grown { Grown (lines_of draft.old) (lines_of draft.new) }
{
    match prefix {
        Prefix::Not => put(draft, at, Line::Not(operand)),
        Prefix::Next => put(draft, at, Line::Next(operand)),
        Prefix::Previous => put(draft, at, Line::Previous(operand)),
        Prefix::WeakPrevious => put(draft, at, Line::WeakPrevious(operand)),
        Prefix::Finally => put_two(
            draft,
            at,
            Line::Const(true),
            |yes| Line::Until(yes, operand),
        ),
        Prefix::Globally => put_two(
            draft,
            at,
            Line::Const(false),
            |no| Line::WeakUntil(operand, no),
        ),
        Prefix::Once => put_two(
            draft,
            at,
            Line::Const(true),
            |yes| Line::Since(yes, operand),
        ),
        Prefix::Historically => put_two(
            draft,
            at,
            Line::Const(false),
            |no| Line::WeakSince(operand, no),
        ),
    }
}

/// A pair's own lines, over the lines of its units.
pub(crate) fn put_infix(
    draft: &mut Draft,
    at: usize,
    operator: Infix,
    left: u8,
    right: u8,
) -> Result<u8, Fault>
    requires left { left < length (lines_of draft.old) }
    requires right { right < length (lines_of draft.old) }
    ensures wrote { Wrote (lines_of draft.old) (lines_of draft.new) (infix_lines operator left right (length (lines_of draft.old))) at result }
    ensures grown { Grown (lines_of draft.old) (lines_of draft.new) }
{
    match operator {
        Infix::And => put(draft, at, Line::And(left, right)),
        Infix::Or => put(draft, at, Line::Or(left, right)),
        Infix::Implies => put_two(draft, at, Line::Not(left), |not| Line::Or(not, right)),
        Infix::Until => put(draft, at, Line::Until(left, right)),
        Infix::WeakUntil => put(draft, at, Line::WeakUntil(left, right)),
        Infix::Since => put(draft, at, Line::Since(left, right)),
        Infix::WeakSince => put(draft, at, Line::WeakSince(left, right)),
    }
}
