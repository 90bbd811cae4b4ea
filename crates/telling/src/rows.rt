// The samples that were judged, and the rows of a run, as text.
ghost use Rattle.std.specs.Fmt.{WritesOnOk};
ghost use Rattle.std.specs.Prelude.{Some};
ghost use Rattle.telling.specs.Truths.{more_text, numbers_text, row_text, rows_text};
ghost use Rattle.telling.specs.Shown.{judged_text, run_text};

use crate::told::{JudgedRows, RunRows};
use session::among::AmongThree;
use session::answer::Filled;
use session::bench::{Bench, Recorded};
use std::fmt;

// Writes values, each after a space.
fn write_more<T: AmongThree, W: fmt::Write>(values: &[T], f: &mut fmt::Formatter<W>) -> fmt::Result
    ensures { WritesOnOk W.Write.write_str_gives f.old result (more_text T.AmongThree.three values.now) f.new }
{
    for value in values {
        write!(f, " {}", value.as_ternary())?;
    }
    Ok(())
}

// Writes the values at a sample, parted by one space.
fn write_row<T: AmongThree, W: fmt::Write>(values: &[T], f: &mut fmt::Formatter<W>) -> fmt::Result
    ensures { WritesOnOk W.Write.write_str_gives f.old result (row_text T.AmongThree.three values.now) f.new }
{
    let Some((first, more)) = values.split_first() else {
        return Ok(());
    };
    write!(f, "{}", first.as_ternary())?;
    write_more(more, f)
}

// Writes so many samples of so many lines, each with its line end.
fn write_rows<T: AmongThree, W: fmt::Write>(
    cells: &[T],
    lines: usize,
    samples: usize,
    f: &mut fmt::Formatter<W>,
) -> fmt::Result
    ensures { WritesOnOk W.Write.write_str_gives f.old result (rows_text T.AmongThree.three samples lines cells.now) f.new }
{
    // not by `chunks`: where cells run out, and where there are no lines, rows are empty
    let mut rest = cells;
    for _t in 0..samples {
        let width = lines.min(rest.len());
        let (row, more) = rest.split_at(width);
        write_row(row, f)?;
        writeln!(f, "")?;
        rest = more;
    }
    Ok(())
}

impl fmt::Display for JudgedRows<'_> {
    ghost output = { λ s. Some (judged_text s) };

    fn fmt<W: fmt::Write>(&self, f: &mut fmt::Formatter<W>) -> fmt::Result {
        let Filled { lines, samples } = self.filled;
        match self.bench.recorded {
            None => Ok(()),
            Some(Recorded::Plain(_)) | Some(Recorded::Turning(_)) => {
                write_rows(self.bench.flags.as_slice(), lines, samples, f)
            }
            Some(Recorded::Gapped(_)) => {
                write_rows(self.bench.levels.as_slice(), lines, samples, f)
            }
        }
    }
}

// Writes numbers in base ten, each with its line end.
fn write_numbers<W: fmt::Write>(numbers: &[u64], f: &mut fmt::Formatter<W>) -> fmt::Result
    ensures { WritesOnOk W.Write.write_str_gives f.old result (numbers_text numbers.now) f.new }
{
    for number in numbers {
        writeln!(f, "{number}")?;
    }
    Ok(())
}

impl fmt::Display for RunRows<'_> {
    ghost output = { λ s. Some (run_text s) };

    fn fmt<W: fmt::Write>(&self, f: &mut fmt::Formatter<W>) -> fmt::Result {
        let rows = self.bench.rows.as_slice();
        let count = self.count.min(rows.len());
        write_numbers(&rows[..count], f)
    }
}
