ghost use Rattle.std.specs.Prelude.{◌≡◌};
ghost use Rattle.run.specs.Story.{told_line, told_done, told_verdict, told_run};

use crate::refusal::{Refusal, WriteRefusal};
use crate::writing::Written;
use meaning::refusal::Refusal as JudgeRefusal;
use sheet::refusal::Refusal as SheetRefusal;

/// The form of a sheet.
#[derive(Clone, Copy, PartialEq, Eq, Debug)]
pub enum Form {
    Draft,
    Sealed,
}

/// What a call answers. `V` are the values of the recordings that are judged, `W` of those whose run is written out.
#[derive(Clone, Copy, PartialEq, Eq, Debug)]
pub enum Answer<V, W> {
    /// the number of the line that was written
    Line(u8),
    Done,
    Refused(Refusal),
    /// the value of the rule at sample 0
    Verdict(V),
    /// the run is in the rows
    Run(Written<W>),
    /// the sheet has no such call while it has this form: it was turned away
    NotWhile(Form),
    /// no recording of this number was lent: there was nothing to call on
    NoRecording,
}

impl<V, W> From<Result<u8, SheetRefusal>> for Answer<V, W> {
    ghost from_gives = { λ r a. a ≡ told_line r };

    fn from(written: Result<u8, SheetRefusal>) -> Answer<V, W> {
        match written {
            Ok(number) => Answer::Line(number),
            Err(refusal) => Answer::Refused(refusal.into()),
        }
    }
}

impl<V, W> From<Result<(), SheetRefusal>> for Answer<V, W> {
    ghost from_gives = { λ r a. a ≡ told_done r };

    fn from(done: Result<(), SheetRefusal>) -> Answer<V, W> {
        match done {
            Ok(()) => Answer::Done,
            Err(refusal) => Answer::Refused(refusal.into()),
        }
    }
}

impl<V, W> From<Result<V, JudgeRefusal>> for Answer<V, W> {
    ghost from_gives = { λ r a. a ≡ told_verdict r };

    fn from(judged: Result<V, JudgeRefusal>) -> Answer<V, W> {
        match judged {
            Ok(verdict) => Answer::Verdict(verdict),
            Err(refusal) => Answer::Refused(refusal.into()),
        }
    }
}

impl<V, W> From<Result<Written<W>, WriteRefusal>> for Answer<V, W> {
    ghost from_gives = { λ r a. a ≡ told_run r };

    fn from(written: Result<Written<W>, WriteRefusal>) -> Answer<V, W> {
        match written {
            Ok(run) => Answer::Run(run),
            Err(refusal) => Answer::Refused(refusal.into()),
        }
    }
}
