// What a script is told of the library's answers.
ghost use Rattle.std.specs.Prelude.{◌≡◌, map};
ghost use Rattle.run.specs.Histories.{ledger_of};
ghost use Rattle.session.specs.Replies.{done_as, filled_on, made_as, samples_on as counted_on, told as told_as};
ghost use Rattle.sheet.specs.Sheets.{sealed_lines};

use crate::among::AmongThree;
use crate::answer::{Answer, Filled, Judged};
use asked::call::SheetCall;
use meaning::extent::reach_of;
use recording::recording::Recording;
use run::answer::Answer as Reply;
use run::call::Call;
use run::form::Sheet;
use run::writing::Written;
use sheet::sealed::Sealed;

// The library's call: a script has one recording at most, of number 0.
pub(crate) fn call_of(call: SheetCall) -> Call
    ensures { result ≡ made_as call }
{
    match call {
        SheetCall::Write(code, left, right) => Call::Write(code, left, right),
        SheetCall::Strike => Call::Strike,
        SheetCall::Seal => Call::Seal,
        SheetCall::Reopen => Call::Reopen,
        SheetCall::Translate => Call::Translate,
        SheetCall::Judge => Call::Judge(0),
        SheetCall::Run => Call::WriteOut(0),
    }
}

// How many samples a sheet is judged on with the first of some recordings.
fn samples_on<R: Recording>(sheet: &Sealed, judged: &[R]) -> usize
    ensures { result ≡ counted_on (sealed_lines sheet.now) (map R.word judged.now) }
{
    match judged {
        [] => 0,
        [first, ..] => reach_of(sheet, first).samples,
    }
}

// How much judging fills, where it can be called.
fn filled_by<R: Recording>(sheet: &Sheet, judged: &[R]) -> Filled
    ensures { result ≡ filled_on (ledger_of sheet.now) (map R.word judged.now) }
{
    match sheet {
        Sheet::Open(_) => Filled {
            lines: 0,
            samples: 0,
        },
        Sheet::Shut(sealed) => Filled {
            lines: sealed.lines().len(),
            samples: samples_on(sealed, judged),
        },
    }
}

// What is told where a call was made.
fn done(call: SheetCall) -> Answer
    ensures { result ≡ done_as call }
{
    match call {
        SheetCall::Translate => Answer::Tables,
        _ => Answer::Done,
    }
}

// What a script is told of a reply after which the sheet is this one; `lacking` where there is no recording to call on.
pub(crate) fn told<R: Recording, W: AmongThree>(
    call: SheetCall,
    sheet: &Sheet,
    judged: &[R],
    lacking: Answer,
    reply: Reply<R::Truth, W>,
) -> Answer
where
    R::Truth: AmongThree,
    ensures { result ≡ told_as R.Truth.AmongThree.three W.AmongThree.three call (filled_on (ledger_of sheet.now) (map R.Recording.word judged.now)) lacking reply }
{
    match reply {
        Reply::Line(number) => Answer::Line(number),
        Reply::Done => done(call),
        Reply::Refused(refusal) => Answer::Refused(refusal.number()),
        Reply::Verdict(value) => Answer::Values(Judged {
            verdict: value.as_ternary(),
            filled: filled_by(sheet, judged),
        }),
        Reply::Run(run) => Answer::Run(Written {
            rows: run.rows,
            back: run.back,
            verdict: run.verdict.as_ternary(),
        }),
        Reply::NotWhile(form) => Answer::NotWhile(form),
        Reply::NoRecording => lacking,
    }
}
