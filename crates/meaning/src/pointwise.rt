// Lines whose value at a sample is told by lower lines, there or at the sample after.
ghost use Rattle.std.specs.Prelude.{◌≡◌, ℕ, ◌-◌, ◌<◌, ◌≤◌, length};
ghost use Rattle.meaning.specs.Cells.{column, Fills, HasColumn, IsRow};
ghost use Rattle.meaning.specs.Columns.{following as next_sample};

use crate::cells::Grid;
use recording::recording::Recording;
use recording::truth::Truth;

// Fills the column of a line with what a closure gives of the lower lines' values at each sample, and of the sample.
pub(crate) fn fill<T: Truth, F: Fn(&[T], usize) -> T>(
    cells: &mut [T],
    grid: Grid,
    line: usize,
    value: F,
)
    requires column { HasColumn grid.width grid.samples line cells.old }
    requires callable { (row : _) (t : ℕ) → length row.now ≡ line → t < grid.samples → F.pre value row t }
    ensures { (y : T → ℕ → T.kind.Value) → ((d : T) (row : _) (t : ℕ) (r : T) → IsRow grid.width line t cells.old row.now → t < grid.samples → F.post value row t r → T.means r ≡ y d t)
        → Fills T.means grid.width line cells.old y 0 grid.samples cells.new }
{
    for t in 0..grid.samples {
        let cell = value(grid.lower(cells, line, t), t);
        grid.put(cells, line, t, cell);
    }
}

// Apart from `fill`: it reads the sample after, and a closure could not know that there is a cell.
pub(crate) fn fill_next<T: Truth>(cells: &mut [T], grid: Grid, line: usize, left: usize)
    requires column { HasColumn grid.width grid.samples line cells.old }
    requires left { left < line }
    ensures { Fills T.means grid.width line cells.old (λ d t. column T.means cells.old grid.width left d (next_sample (grid.samples - grid.cycle) grid.samples t)) 0 grid.samples cells.new }
{
    for t in 0..grid.samples {
        let value = grid.read(cells, left, grid.following(t));
        grid.put(cells, line, t, value);
    }
}

// The value of a signal that a recording has.
pub(crate) fn value_of<R: Recording>(recording: &R, signal: u8, sample: usize) -> R::Truth
    requires named { signal < (R.Recording.word recording.now).signals }
    requires few { sample ≤ 4352 }
    ensures { R.Truth.Truth.means result ≡ R.Truth.Truth.means ((R.Recording.word recording.now).at signal sample) }
{
    recording.value(u32::from(signal), sample as u32).unwrap()
}
