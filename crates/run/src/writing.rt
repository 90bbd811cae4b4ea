// Writes out the run of a sealed sheet on a two-valued recording.
ghost use Rattle.sheet.specs.Sheets.{sealed_lines};
ghost use Rattle.run.specs.Writing.{WritesOut};

use crate::refusal::WriteRefusal;
use crate::rows::fill_rows;
use machine::signs::pass::signs_in;
use meaning::evaluator::judge;
use meaning::extent::extent_of;
use recording::recording::Recording;
use recording::truth::{Truth, TwoValued};
use sheet::sealed::Sealed;

/// A run that was written out, endless as it is: after its last row comes row `back` again.
#[derive(Clone, Copy, PartialEq, Eq, Debug)]
pub struct Written<T> {
    /// how many rows
    pub rows: usize,
    pub back: usize,
    /// the value of the rule at sample 0
    pub verdict: T,
}

/// Judges a sealed sheet on a two-valued recording, and sets a row of 64 bits for each sample judged: bit j of row t is
/// variable j of the sheet's translation, which shows its line's value at t, but for since and weak since the value at
/// t - 1, and at 0 the start. Other bits are 0; further rows stay.
pub fn write_out<B: Recording>(
    sheet: &Sealed,
    recording: &B,
    cells: &mut [B::Truth],
    rows: &mut [u64],
) -> Result<Written<B::Truth>, WriteRefusal>
where
    B::Truth: TwoValued,
    ensures { WritesOut B.Truth.Truth.kind B.Truth.Truth.means (sealed_lines sheet.now) (B.Recording.word recording.now) cells.old cells.new rows.old rows.new result }
{
    // the question's contract: the kind has no third value
    let _ = B::Truth::no().is_yes();
    let extent = extent_of(sheet, recording, cells.len())?;
    if rows.len() < extent.samples {
        return Err(WriteRefusal::TooFewRows);
    }
    let verdict = judge(sheet, recording, cells)?;
    let signs = signs_in(sheet);
    fill_rows(sheet.lines(), &signs, cells, &mut rows[..extent.samples]);
    Ok(Written {
        rows: extent.samples,
        back: extent.steady,
        verdict,
    })
}
