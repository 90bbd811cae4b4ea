ghost use Rattle.std.specs.Prelude.{◌≡◌};
ghost use Rattle.run.specs.declared.refusal.Refusal.TheVariants.{Sheet, Judge, WriteOut};
ghost use Rattle.run.specs.declared.refusal.WriteRefusal.TheVariants.{NotJudged};
ghost use Rattle.run.specs.Refusals.{number_of, refused_number};

use meaning::refusal::Refusal as JudgeRefusal;
use sheet::refusal::Refusal as SheetRefusal;

/// Why a run is not written out. Cells and rows then stay as they were.
#[derive(Clone, Copy, PartialEq, Eq, Debug)]
pub enum WriteRefusal {
    /// the sheet is not judged
    NotJudged(JudgeRefusal),
    /// there are fewer rows than samples
    TooFewRows,
}

impl WriteRefusal {
    /// Its number among the refused calls; that of a refusal to judge is its own.
    pub fn number(self) -> u8
        ensures { result ≡ number_of self }
    {
        match self {
            WriteRefusal::NotJudged(refusal) => refusal.number(),
            WriteRefusal::TooFewRows => 7,
        }
    }
}

impl From<JudgeRefusal> for WriteRefusal {
    ghost from_gives = { λ e r. r ≡ NotJudged e };

    fn from(refusal: JudgeRefusal) -> WriteRefusal {
        WriteRefusal::NotJudged(refusal)
    }
}

/// Why a call on a sheet is refused.
#[derive(Clone, Copy, PartialEq, Eq, Debug)]
pub enum Refusal {
    /// by the sheet
    Sheet(SheetRefusal),
    /// a call to judge
    Judge(JudgeRefusal),
    /// a call to write out
    WriteOut(WriteRefusal),
}

impl Refusal {
    /// Its number among the refused calls.
    pub fn number(self) -> u8
        ensures { result ≡ refused_number self }
    {
        match self {
            Refusal::Sheet(refusal) => refusal.number(),
            Refusal::Judge(refusal) => refusal.number(),
            Refusal::WriteOut(refusal) => refusal.number(),
        }
    }
}

impl From<SheetRefusal> for Refusal {
    ghost from_gives = { λ e r. r ≡ Sheet e };

    fn from(refusal: SheetRefusal) -> Refusal {
        Refusal::Sheet(refusal)
    }
}

impl From<JudgeRefusal> for Refusal {
    ghost from_gives = { λ e r. r ≡ Judge e };

    fn from(refusal: JudgeRefusal) -> Refusal {
        Refusal::Judge(refusal)
    }
}

impl From<WriteRefusal> for Refusal {
    ghost from_gives = { λ e r. r ≡ WriteOut e };

    fn from(refusal: WriteRefusal) -> Refusal {
        Refusal::WriteOut(refusal)
    }
}
