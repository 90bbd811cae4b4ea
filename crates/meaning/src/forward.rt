// Lines that look ahead for ever: filled downward, where after the last sample the cycle comes again.
ghost use Rattle.std.specs.Prelude.{◌≡◌, ◌-◌, ◌<◌};
ghost use Rattle.meaning.specs.Cells.{Room, column, Fills, HasColumn};
ghost use Rattle.meaning.specs.Columns.{passes};
ghost use Rattle.meaning.specs.Judging.{pass};

use crate::cells::Grid;
use recording::truth::Truth;

// One pass down the last cycle, from `start` behind it.
fn sweep<T: Truth>(cells: &[T], grid: Grid, left: usize, right: usize, start: T) -> T
    requires room { Room cells.now grid.width grid.samples }
    requires left { left < grid.width }
    requires right { right < grid.width }
    ensures { (d : T) → T.means result ≡ pass T.kind (column T.means cells.now grid.width left d) (column T.means cells.now grid.width right d) (grid.samples - grid.cycle) grid.cycle (T.means start) }
{
    let mut held = start;
    for t in (grid.samples - grid.cycle..grid.samples).rev() {
        held = grid.carry(cells, left, right, t, held);
    }
    held
}

// The second pass, down all samples.
pub(crate) fn fill_until<T: Truth>(
    cells: &mut [T],
    grid: Grid,
    line: usize,
    left: usize,
    right: usize,
    start: T,
)
    requires column { HasColumn grid.width grid.samples line cells.old }
    requires left { left < line }
    requires right { right < line }
    ensures { Fills T.means grid.width line cells.old (λ d t. passes T.kind (column T.means cells.old grid.width left d) (column T.means cells.old grid.width right d) (grid.samples - grid.cycle) grid.samples (T.means start) t) 0 grid.samples cells.new }
{
    let mut held = sweep(cells, grid, left, right, start);
    for t in (0..grid.samples).rev() {
        held = grid.carry(cells, left, right, t, held);
        grid.put(cells, line, t, held);
    }
}
