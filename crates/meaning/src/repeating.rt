// Samples that repeat, copied.
ghost use Rattle.std.specs.Prelude.{◌≡◌, ◌+◌, ◌<◌, ◌≤◌, length};
ghost use Rattle.meaning.specs.Cells.{Room, Repeated};

use crate::cells::Grid;

// Copies the first lines of the sample a cycle before sample t.
fn repeat_sample<T: Copy>(cells: &mut [T], grid: Grid, lines: usize, t: usize)
    requires room { Room cells.old grid.width (t + 1) }
    requires few { lines ≤ grid.width }
    requires turn { grid.cycle ≤ t }
    ensures { Repeated grid.width lines grid.cycle t (t + 1) cells.old cells.new }
{
    // by hand: `copy_within` asks for each row which way to go, and judging takes up to 8 in 100 more instructions
    for a in 0..lines {
        let value = grid.read(cells, a, t - grid.cycle);
        grid.put(cells, a, t, value);
    }
}

// Copies the first lines of the last cycle to as many samples behind it.
pub(crate) fn repeat<T: Copy>(cells: &mut [T], grid: Grid, lines: usize, count: usize)
    requires room { Room cells.old grid.width (grid.samples + count) }
    requires lines { lines ≤ grid.width }
    requires turn { count ≤ grid.cycle }
    ensures { Repeated grid.width lines grid.cycle grid.samples (grid.samples + count) cells.old cells.new }
{
    for t in grid.samples..grid.samples + count {
        repeat_sample(cells, grid, lines, t);
    }
}
