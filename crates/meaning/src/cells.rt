// The cells as a table with a row for each sample and a column for each line.
ghost use Rattle.std.specs.Prelude.{◌≡◌, ◌+◌, ◌-◌, ◌*◌, ◌<◌, ◌≤◌, length, slice_index_or, slice_set};
ghost use Rattle.meaning.specs.Cells.{column, IsRow};
ghost use Rattle.meaning.specs.Columns.{following as next_sample};

use recording::truth::Truth;

/// How the cells are laid out: the lines in a row, the samples, and how many of them are the cycle that comes again after
/// the last. The cells stand beside it: a struct that held the borrowed slice would have to say in each contract that it
/// holds the same one still.
#[derive(Clone, Copy)]
pub(crate) struct Grid {
    pub(crate) width: usize,
    pub(crate) samples: usize,
    pub(crate) cycle: usize,
    ghost some: { 1 ≤ cycle },
    ghost whole: { cycle ≤ samples },
    ghost few: { samples ≤ 4352 },
}

impl Grid {
    pub(crate) fn read<T: Copy>(self, cells: &[T], line: usize, sample: usize) -> T
        requires { sample * self.width + line < length cells.now }
        ensures { (d : T) → slice_index_or cells.now (sample * self.width + line) d ≡ result }
    {
        cells[sample * self.width + line]
    }

    pub(crate) fn put<T: Copy>(self, cells: &mut [T], line: usize, sample: usize, value: T)
        requires { sample * self.width + line < length cells.old }
        ensures { cells.new ≡ slice_set cells.old (sample * self.width + line) value }
    {
        cells[sample * self.width + line] = value;
    }

    // The lines below a line at a sample.
    pub(crate) fn lower<T: Copy>(self, cells: &[T], line: usize, sample: usize) -> &[T]
        requires { sample * self.width + line < length cells.now }
        ensures { IsRow self.width line sample cells.now result.now }
    {
        let start = sample * self.width;
        &cells[start..start + line]
    }

    // Right at a sample, or left there and the value that is held.
    pub(crate) fn carry<T: Truth>(
        self,
        cells: &[T],
        left: usize,
        right: usize,
        sample: usize,
        held: T,
    ) -> T
        requires left { sample * self.width + left < length cells.now }
        requires right { sample * self.width + right < length cells.now }
        ensures { (d : T) → T.means result ≡ T.kind.Or (column T.means cells.now self.width right d sample) (T.kind.And (column T.means cells.now self.width left d sample) (T.means held)) }
    {
        let l = self.read(cells, left, sample);
        let r = self.read(cells, right, sample);
        r.or(l.and(held))
    }

    // The sample that comes after a sample.
    pub(crate) fn following(self, sample: usize) -> usize
        requires { sample < self.samples }
        ensures { result ≡ next_sample (self.samples - self.cycle) self.samples sample }
    {
        if sample + 1 < self.samples {
            sample + 1
        } else {
            self.samples - self.cycle
        }
    }
}
