// How far a sheet is judged on a recording, and whether it can be.
ghost use Rattle.std.specs.Prelude.{◌≡◌, ◌<◌, ◌≤◌, length};
ghost use Rattle.meaning.specs.Extents.{Reaches};
ghost use Rattle.meaning.specs.Verdict.{horizon, steady as steady_from};
ghost use Rattle.sheet.specs.Sheets.{sealed_lines};
ghost use Rattle.sheet.specs.Table.{Sheet as IsSheet};

use crate::naming::has_signals;
use crate::refusal::Refusal;
use crate::signals::count_back;
use recording::recording::Recording;
use sheet::line::Line;
use sheet::sealed::Sealed;

/// The samples that are judged.
#[derive(Clone, Copy, PartialEq, Eq, Debug)]
pub struct Extent {
    /// how many there are
    pub samples: usize,
    /// the sample that comes after the last, and from which on every line repeats
    pub steady: usize,
}

// How far the lines of a sheet are judged.
fn reach<R: Recording>(lines: &[Line], recording: &R) -> Extent
    requires sheet { IsSheet lines.now }
    requires some { 0 < length lines.now }
    requires few { length lines.now ≤ 64 }
    ensures samples { result.samples ≡ horizon lines.now (R.Recording.word recording.now) }
    ensures steady { result.steady ≡ steady_from lines.now (R.Recording.word recording.now) }
{
    let cycle = recording.cycle() as usize;
    let steady = recording.stem() as usize + count_back(lines) * cycle;
    Extent {
        samples: steady + cycle,
        steady,
    }
}

/// How far a sealed sheet is judged on a recording, whether it can be or not.
pub fn reach_of<R: Recording>(sheet: &Sealed, recording: &R) -> Extent
    ensures samples { result.samples ≡ horizon (sealed_lines sheet.now) (R.Recording.word recording.now) }
    ensures steady { result.steady ≡ steady_from (sealed_lines sheet.now) (R.Recording.word recording.now) }
{
    reach(sheet.lines(), recording)
}

// The extent of the lines of a sheet.
pub(crate) fn extent_of_lines<R: Recording>(
    lines: &[Line],
    recording: &R,
    cells: usize,
) -> Result<Extent, Refusal>
    requires sheet { IsSheet lines.now }
    requires some { 0 < length lines.now }
    requires few { length lines.now ≤ 64 }
    ensures { Reaches lines.now (R.Recording.word recording.now) cells result }
{
    if !has_signals(lines, recording) {
        return Err(Refusal::NoSignal);
    }
    let extent = reach(lines, recording);
    if cells < lines.len() * extent.samples {
        return Err(Refusal::TooFewCells);
    }
    Ok(extent)
}

/// How far a sealed sheet is judged on a recording with so many cells; or the refusal that judging it would meet.
pub fn extent_of<R: Recording>(
    sheet: &Sealed,
    recording: &R,
    cells: usize,
) -> Result<Extent, Refusal>
    ensures { Reaches (sealed_lines sheet.now) (R.Recording.word recording.now) cells result }
{
    extent_of_lines(sheet.lines(), recording, cells)
}
