// The one evaluator, for all truth kinds and all recordings.
ghost use Rattle.std.specs.Prelude.{◌≡◌, suc, ◌+◌, ◌-◌, ◌*◌, ◌<◌, ◌≤◌, length};
ghost use Rattle.meaning.specs.Sheet.{constant, rule_of};
ghost use Rattle.recording.specs.Word.{meant};
ghost use Rattle.sheet.specs.Sheets.{sealed_lines};
ghost use Rattle.sheet.specs.Table.{Lower, Named, Sheet as IsSheet};
ghost use Rattle.meaning.specs.Cells.{column, Fills, HasColumn};
ghost use Rattle.meaning.specs.Columns.{written};
ghost use Rattle.meaning.specs.Verdict.{Verdict};

use crate::backward::{fill_previous, fill_since};
use crate::cells::Grid;
use crate::depth::depth_under;
use crate::extent::extent_of_lines;
use crate::forward::fill_until;
use crate::pointwise::{fill, fill_next, value_of};
use crate::refusal::Refusal;
use crate::repeating::repeat;
use crate::signals::looks_back;
use recording::recording::Recording;
use recording::truth::Truth;
use sheet::line::Line;
use sheet::sealed::Sealed;

// no for 0, yes for 1
fn truth_of<T: Truth>(bit: bool) -> T
    ensures { T.means result ≡ constant T.kind bit }
{
    if bit { T::yes() } else { T::no() }
}

// Fills the column of one line from the columns of lower lines.
fn fill_line<R: Recording>(
    cells: &mut [R::Truth],
    grid: Grid,
    number: usize,
    one: Line,
    recording: &R,
)
    requires column { HasColumn grid.width grid.samples number cells.old }
    requires lower { Lower number one }
    requires named { Named (R.Recording.word recording.now).signals one }
    ensures { Fills R.Truth.Truth.means grid.width number cells.old (λ d t. written R.Truth.Truth.kind (meant R.Truth.Truth.means (R.Recording.word recording.now)) (grid.samples - grid.cycle) grid.samples one (λ a. column R.Truth.Truth.means cells.old grid.width a d) t) 0 grid.samples cells.new }
{
    let no = R::Truth::no();
    let yes = R::Truth::yes();
    match one {
        Line::Const(bit) => {
            let value = truth_of(bit);
            fill(cells, grid, number, |_, _| value)
        }
        Line::Signal(signal) => fill(cells, grid, number, |_, t| value_of(recording, signal, t)),
        Line::Not(a) => fill(cells, grid, number, |row, _| row[a as usize].not()),
        Line::And(a, b) => fill(cells, grid, number, |row, _| {
            row[a as usize].and(row[b as usize])
        }),
        Line::Or(a, b) => fill(cells, grid, number, |row, _| {
            row[a as usize].or(row[b as usize])
        }),
        Line::Next(a) => fill_next(cells, grid, number, a as usize),
        Line::Until(a, b) => fill_until(cells, grid, number, a as usize, b as usize, no),
        Line::WeakUntil(a, b) => fill_until(cells, grid, number, a as usize, b as usize, yes),
        Line::Previous(a) => fill_previous(cells, grid, number, a as usize, no),
        Line::WeakPrevious(a) => fill_previous(cells, grid, number, a as usize, yes),
        Line::Since(a, b) => fill_since(cells, grid, number, a as usize, b as usize, no),
        Line::WeakSince(a, b) => fill_since(cells, grid, number, a as usize, b as usize, yes),
    }
}

// Judges the lines of a sheet.
fn judge_lines<R: Recording>(
    lines: &[Line],
    recording: &R,
    cells: &mut [R::Truth],
) -> Result<R::Truth, Refusal>
    requires sheet { IsSheet lines.now }
    requires some { 0 < length lines.now }
    requires few { length lines.now ≤ 64 }
    ensures { Verdict R.Truth.Truth.kind R.Truth.Truth.means lines.now (R.Recording.word recording.now) (rule_of lines.now) 0 cells.old cells.new result }
{
    let extent = extent_of_lines(lines, recording, cells.len())?;
    let width = lines.len();
    let cycle = recording.cycle() as usize;
    let mut samples = recording.stem() as usize + cycle;
    // an array, since no call of the library allocates
    let mut depths = [0; 64];
    let mut deepest = 0;
    for (k, line) in lines.iter().enumerate() {
        let depth = depth_under(*line, &depths) + usize::from(looks_back(*line));
        // lower lines repeat from the last cycle on, and a line that is deeper than all of them a cycle later
        let deeper = depth.saturating_sub(deepest);
        let count = deeper * cycle;
        repeat(
            cells,
            Grid {
                width,
                samples,
                cycle,
            },
            k,
            count,
        );
        samples += count;
        depths[k] = depth;
        deepest += deeper;
        fill_line(
            cells,
            Grid {
                width,
                samples,
                cycle,
            },
            k,
            *line,
            recording,
        );
    }
    while samples < extent.samples {
        repeat(
            cells,
            Grid {
                width,
                samples,
                cycle,
            },
            width,
            cycle,
        );
        samples += cycle;
    }
    Ok(cells[width - 1])
}

/// Judges a sealed sheet on a recording: sets cell t * L + k to the value of line k at sample t, for each of the L lines
/// and each sample below S + v, where S is the stem and a cycle v for each line that looks back; keeps further cells; and
/// answers the value of the rule, the last line, at sample 0.
pub fn judge<R: Recording>(
    sheet: &Sealed,
    recording: &R,
    cells: &mut [R::Truth],
) -> Result<R::Truth, Refusal>
    ensures { Verdict R.Truth.Truth.kind R.Truth.Truth.means (sealed_lines sheet.now) (R.Recording.word recording.now) (rule_of (sealed_lines sheet.now)) 0 cells.old cells.new result }
{
    judge_lines(sheet.lines(), recording, cells)
}
