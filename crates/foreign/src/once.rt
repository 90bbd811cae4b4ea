ghost use Rattle.std.specs.Prelude.{◌≡◌};
ghost use Rattle.foreign.specs.declared.once.Fault.TheVariants.{Sealing, Judging};
ghost use Rattle.foreign.specs.Once.{JudgedOnce};
ghost use Rattle.sheet.specs.Sheets.{lines_of};

use meaning::evaluator::judge;
use meaning::refusal::Refusal as NotJudged;
use recording::recording::Recording;
use recording::truth::Truth;
use sheet::draft::Draft;
use sheet::refusal::Refusal as NotSealed;
use sheet::sealed::Unsealed;

/// Why a draft is not judged.
#[derive(Clone, Copy, PartialEq, Eq, Debug)]
pub enum Fault {
    Sealing(NotSealed),
    Judging(NotJudged),
}

impl From<Unsealed> for Fault {
    ghost from_gives = { λ back fault. fault ≡ Sealing back.refusal };

    /// Why the draft is not sealed; the draft is let go.
    fn from(back: Unsealed) -> Fault {
        Fault::Sealing(back.refusal)
    }
}

impl From<NotJudged> for Fault {
    ghost from_gives = { λ refusal fault. fault ≡ Judging refusal };

    fn from(refusal: NotJudged) -> Fault {
        Fault::Judging(refusal)
    }
}

/// Judges a draft by sealing it first, and lets it go.
pub fn judge_once<R: Recording>(
    draft: Draft,
    recording: &R,
    cells: &mut [R::Truth],
) -> Result<R::Truth, Fault>
    ensures { JudgedOnce R.Truth.Truth.kind R.Truth.Truth.means (lines_of draft) (R.Recording.word recording.now) cells.old cells.new result }
{
    let sealed = draft.seal()?;
    Ok(judge(&sealed, recording, cells)?)
}
