// How many lines look back.
ghost use Rattle.std.specs.Prelude.{◌≡◌, ◌==◌, length};
ghost use Rattle.sheet.specs.Table.{line, past, pasts};

use sheet::line::Line;

// Whether a line looks back.
pub(crate) fn looks_back(one: Line) -> bool
    ensures { result ≡ (past one == 1) }
{
    matches!(
        one,
        Line::Previous(_) | Line::WeakPrevious(_) | Line::Since(_, _) | Line::WeakSince(_, _)
    )
}

// How many lines look back.
pub(crate) fn count_back(lines: &[Line]) -> usize
    ensures { result ≡ pasts (line lines.now) (length lines.now) }
{
    lines.iter().filter(|&&line| looks_back(line)).count()
}
