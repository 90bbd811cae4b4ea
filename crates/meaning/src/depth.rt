// How deep a line looks back.
ghost use Rattle.std.specs.Prelude.{◌≡◌, ℕ, ◌≤◌, slice_index};
ghost use Rattle.meaning.specs.Depths.{under};
ghost use Rattle.sheet.specs.Table.{Lower};

use sheet::line::Line;

// The depth of the deeper line that a line names.
pub(crate) fn depth_under(one: Line, depths: &[usize; 64]) -> usize
    requires { Lower 64 one }
    ensures { result ≡ under (λ a. slice_index depths.now a) one }
{
    // each line by name, since they differ in what they read
    match one {
        Line::Const(_) | Line::Signal(_) => 0,
        Line::Not(a) | Line::Next(a) | Line::Previous(a) | Line::WeakPrevious(a) => {
            depths[a as usize]
        }
        Line::And(a, b)
        | Line::Or(a, b)
        | Line::Until(a, b)
        | Line::WeakUntil(a, b)
        | Line::Since(a, b)
        | Line::WeakSince(a, b) => depths[a as usize].max(depths[b as usize]),
    }
}
