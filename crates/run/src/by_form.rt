// One call on a draft, and one on a sealed sheet.
ghost use Rattle.std.specs.Prelude.{◌≡◌, ℕ, List};
ghost use Rattle.sheet.specs.Ledger.{Shut};
ghost use Rattle.sheet.specs.Sheets.{drafted, shut, sealed_lines};
ghost use Rattle.machine.specs.Machines.{tables};
ghost use Rattle.machine.specs.Tables.{Tables};
ghost use Rattle.run.specs.declared.call.Call.TheVariants.{Seal};
ghost use Rattle.run.specs.Histories.{ledger_of, step as next_ledger};
ghost use Rattle.run.specs.Story.{DraftSays, heard, lent, JudgesNumber, WritesNumber, Tells};

use crate::answer::{Answer, Form};
use crate::call::Call;
use crate::form::Sheet;
use crate::step::Stepped;
use crate::writing::write_out;
use machine::place::Machine;
use machine::translator::translate;
use meaning::evaluator::judge;
use recording::recording::Recording;
use recording::truth::{Truth, TwoValued};
use sheet::draft::Draft;
use sheet::sealed::Sealed;

// Seals a draft that has a line.
fn seal<V, W>(draft: Draft) -> Stepped<V, W>
    ensures ledger { ledger_of result.sheet ≡ next_ledger (drafted draft) Seal }
    ensures says { DraftSays (drafted draft) Seal result.answer }
{
    match draft.seal() {
        Ok(sheet) => Stepped {
            sheet: Sheet::Shut(sheet),
            answer: Answer::Done,
        },
        Err(back) => Stepped {
            sheet: Sheet::Open(back.draft),
            answer: Answer::Refused(back.refusal.into()),
        },
    }
}

pub(crate) fn on_draft<V, W>(mut draft: Draft, call: Call) -> Stepped<V, W>
    ensures ledger { ledger_of result.sheet ≡ next_ledger (drafted draft) call }
    ensures says { DraftSays (drafted draft) call result.answer }
{
    let answer = match call {
        Call::Write(code, left, right) => draft.write(code, left, right).into(),
        Call::Strike => draft.strike().into(),
        Call::Seal => return seal(draft),
        Call::Reopen | Call::Translate | Call::Judge(_) | Call::WriteOut(_) => {
            Answer::NotWhile(Form::Draft)
        }
    };
    Stepped {
        sheet: Sheet::Open(draft),
        answer,
    }
}

// Judges the sheet on the recording of this number, whatever else is lent. It and the next are two functions: a closure
// whose result names a type that neither its captures nor its arguments name cannot be passed to one.
fn judge_number<R: Recording, W>(
    sheet: &Sealed,
    number: usize,
    judged: &[R],
    cells: &mut [R::Truth],
) -> Answer<R::Truth, W>
    ensures { (machine : Tables) (bits : List W) (rows : List ℕ) → JudgesNumber (heard R.Truth.Truth.kind R.Truth.Truth.means R.Recording.word judged.now) (sealed_lines sheet.now) number result (lent machine cells.old bits rows) (lent machine cells.new bits rows) }
{
    let Some(recording) = judged.get(number) else {
        return Answer::NoRecording;
    };
    judge(sheet, recording, cells).into()
}

// Writes out its run on the two-valued recording of this number.
fn write_number<V, B: Recording>(
    sealed: &Sealed,
    number: usize,
    written: &[B],
    bits: &mut [B::Truth],
    rows: &mut [u64],
) -> Answer<V, B::Truth>
where
    B::Truth: TwoValued,
    ensures { (machine : Tables) (cells : List V) → WritesNumber (heard B.Truth.Truth.kind B.Truth.Truth.means B.Recording.word written.now) (sealed_lines sealed.now) number result (lent machine cells bits.old rows.old) (lent machine cells bits.new rows.new) }
{
    let Some(recording) = written.get(number) else {
        return Answer::NoRecording;
    };
    write_out(sealed, recording, bits, rows).into()
}

pub(crate) fn on_sealed<R: Recording, B: Recording>(
    sealed: Sealed,
    call: Call,
    judged: &[R],
    written: &[B],
    machine: &mut Machine,
    cells: &mut [R::Truth],
    bits: &mut [B::Truth],
    rows: &mut [u64],
) -> Stepped<R::Truth, B::Truth>
where
    B::Truth: TwoValued,
    ensures ledger { ledger_of result.sheet ≡ next_ledger (shut sealed) call }
    ensures tells { Tells (heard R.Truth.Truth.kind R.Truth.Truth.means R.Recording.word judged.now) (heard B.Truth.Truth.kind B.Truth.Truth.means B.Recording.word written.now) Shut (shut sealed) call result.answer (lent (tables machine.old) cells.old bits.old rows.old) (lent (tables machine.new) cells.new bits.new rows.new) }
{
    let answer = match call {
        Call::Reopen => {
            return Stepped {
                sheet: Sheet::Open(sealed.reopen()),
                answer: Answer::Done,
            };
        }
        Call::Translate => {
            translate(&sealed, machine);
            Answer::Done
        }
        Call::Judge(number) => judge_number(&sealed, number, judged, cells),
        Call::WriteOut(number) => write_number(&sealed, number, written, bits, rows),
        Call::Write(_, _, _) | Call::Strike | Call::Seal => Answer::NotWhile(Form::Sealed),
    };
    Stepped {
        sheet: Sheet::Shut(sealed),
        answer,
    }
}
