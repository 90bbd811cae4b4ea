// Lines that look back: filled upward. Apart from `fill`: each sample hands a value on to the next.
ghost use Rattle.std.specs.Prelude.{◌≡◌, suc, ◌<◌};
ghost use Rattle.meaning.specs.Cells.{column, Fills, HasColumn};
ghost use Rattle.meaning.specs.Columns.{carried};
ghost use Rattle.meaning.specs.Sheet.{before};

use crate::cells::Grid;
use recording::truth::Truth;

pub(crate) fn fill_previous<T: Truth>(
    cells: &mut [T],
    grid: Grid,
    line: usize,
    left: usize,
    start: T,
)
    requires column { HasColumn grid.width grid.samples line cells.old }
    requires left { left < line }
    ensures { Fills T.means grid.width line cells.old (λ d t. before T.kind (T.means start) (column T.means cells.old grid.width left d) t) 0 grid.samples cells.new }
{
    let mut held = start;
    for t in 0..grid.samples {
        grid.put(cells, line, t, held);
        held = grid.read(cells, left, t);
    }
}

pub(crate) fn fill_since<T: Truth>(
    cells: &mut [T],
    grid: Grid,
    line: usize,
    left: usize,
    right: usize,
    start: T,
)
    requires column { HasColumn grid.width grid.samples line cells.old }
    requires left { left < line }
    requires right { right < line }
    ensures { Fills T.means grid.width line cells.old (λ d t. carried T.kind (column T.means cells.old grid.width left d) (column T.means cells.old grid.width right d) (T.means start) (suc t)) 0 grid.samples cells.new }
{
    let mut held = start;
    for t in 0..grid.samples {
        let value = grid.carry(cells, left, right, t, held);
        grid.put(cells, line, t, value);
        held = value;
    }
}
