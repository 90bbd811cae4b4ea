// Packs what the variables show into rows, a row for each sample.
ghost use Rattle.std.specs.Prelude.{◌≡◌, ◌+◌, ◌*◌, ◌<◌, ◌≤◌, length, if◌then◌else◌};
ghost use Rattle.meaning.specs.Cells.{Room, column};
ghost use Rattle.meaning.specs.Sheet.{before};
ghost use Rattle.laws.specs.Laws.{shown};
ghost use Rattle.machine.specs.Translation.{memory};
ghost use Rattle.run.specs.Packing.{SignsOf, Packed, RowsPacked};

use crate::bits::with_bit;
use machine::signs::Signs;
use recording::truth::{Truth, TwoValued};
use sheet::line::Line;

// Whether a line has a variable.
fn has_variable(line: Line) -> bool
    ensures { (if result then 1 else 0) ≡ memory line }
{
    !matches!(
        line,
        Line::Const(_) | Line::Signal(_) | Line::Not(_) | Line::And(_, _) | Line::Or(_, _)
    )
}

// The value of a line one sample before, and `start` at sample 0.
fn earlier<T: Truth>(cells: &[T], width: usize, number: usize, sample: usize, start: T) -> T
    requires { sample * width + number < length cells.now }
    ensures { (d : T) → T.means result ≡ before T.kind (T.means start) (column T.means cells.now width number d) sample }
{
    if sample == 0 {
        start
    } else {
        cells[(sample - 1) * width + number]
    }
}

// What the variable of a line shows at a sample.
fn shown_at<T: Truth>(cells: &[T], width: usize, number: usize, line: Line, sample: usize) -> T
    requires { sample * width + number < length cells.now }
    ensures { (d : T) → T.means result ≡ shown T.kind line (column T.means cells.now width number d) sample }
{
    match line {
        Line::Since(_, _) => earlier(cells, width, number, sample, T::no()),
        Line::WeakSince(_, _) => earlier(cells, width, number, sample, T::yes()),
        _ => cells[sample * width + number],
    }
}

// The row of a sample.
fn row_at<T: TwoValued>(lines: &[Line], signs: &[Signs; 64], cells: &[T], sample: usize) -> u64
    requires few { length lines.now ≤ 64 }
    requires signed { SignsOf lines.now signs.now }
    requires room { sample * length lines.now + length lines.now ≤ length cells.now }
    ensures { Packed T.Truth.kind T.Truth.means lines.now cells.now (length lines.now) sample result }
{
    let mut row = 0;
    let mut name = 0;
    for (k, &line) in lines.iter().enumerate() {
        if signs[k].is_used() && has_variable(line) {
            let value = shown_at(cells, lines.len(), k, line, sample);
            row = with_bit(row, name, value.is_yes());
            name += 1;
        }
    }
    row
}

// Fills the rows, one for each sample from the first on.
pub(crate) fn fill_rows<T: TwoValued>(
    lines: &[Line],
    signs: &[Signs; 64],
    cells: &[T],
    rows: &mut [u64],
)
    requires few { length lines.now ≤ 64 }
    requires signed { SignsOf lines.now signs.now }
    requires cells { length lines.now * length rows.old ≤ length cells.now }
    ensures { RowsPacked T.Truth.kind T.Truth.means lines.now cells.now rows.old rows.new (length rows.old) }
{
    for (t, row) in rows.iter_mut().enumerate() {
        *row = row_at(lines, signs, cells, t);
    }
}
