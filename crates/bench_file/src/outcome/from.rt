// The refusals of all layers as one.
ghost use Rattle.std.specs.Prelude.{◌≡◌};
ghost use Rattle.bench_file.specs.declared.outcome.ReportRefusal.TheVariants.{File, Tape, Text, Judging};

use crate::outcome::ReportRefusal;
use crate::refusal::FileRefusal;
use meaning::refusal::Refusal;
use recording::refusal::TapeRefusal;
use text::fault::Fault;

impl From<FileRefusal> for ReportRefusal {
    ghost from_gives = { λ e r. r ≡ File e };

    fn from(refusal: FileRefusal) -> ReportRefusal {
        ReportRefusal::File(refusal)
    }
}

impl From<TapeRefusal> for ReportRefusal {
    ghost from_gives = { λ e r. r ≡ Tape e };

    fn from(refusal: TapeRefusal) -> ReportRefusal {
        ReportRefusal::Tape(refusal)
    }
}

impl From<Fault> for ReportRefusal {
    ghost from_gives = { λ e r. r ≡ Text e };

    fn from(fault: Fault) -> ReportRefusal {
        ReportRefusal::Text(fault)
    }
}

impl From<Refusal> for ReportRefusal {
    ghost from_gives = { λ e r. r ≡ Judging e };

    fn from(refusal: Refusal) -> ReportRefusal {
        ReportRefusal::Judging(refusal)
    }
}
