// Makes a call of a script on its sheet.
ghost use Rattle.std.specs.Prelude.{◌≡◌, [], ◌∷◌, map};
ghost use Rattle.recording.specs.Made.{gapped_word};
ghost use Rattle.machine.specs.Machines.{tables};
ghost use Rattle.run.specs.Histories.{ledger_of, step as next_ledger};
ghost use Rattle.run.specs.Story.{heard, lent as lent_of};
ghost use Rattle.session.specs.Among.{raised};
ghost use Rattle.session.specs.Performing.{flags_heard, levels_heard, OnBench, Performs};
ghost use Rattle.session.specs.Replies.{made_as};
ghost use Rattle.session.specs.declared.answer.Answer.TheVariants.{NoRecording, NotTwoValued};

use crate::among::AmongThree;
use crate::answer::Answer;
use crate::bench::{Bench, Lending, Recorded};
use crate::replying::{call_of, told};
use asked::call::SheetCall;
use machine::place::Machine;
use recording::gapped::GappedTape;
use recording::recording::Recording;
use recording::tape::Tape;
use recording::truth::{Ternary, TwoValued};
use run::form::Sheet;
use run::step::perform as perform_on;

/// A sheet after a call, and what the call answered.
#[derive(Drop)]
pub struct Stepped {
    pub sheet: Sheet,
    pub answer: Answer,
}

// Makes the call with the first so many cells and rows, or all.
fn perform_with<R: Recording, B: Recording>(
    sheet: Sheet,
    call: SheetCall,
    lacking: Answer,
    judged: &[R],
    written: &[B],
    lending: Lending,
    machine: &mut Machine,
    cells: &mut [R::Truth],
    bits: &mut [B::Truth],
    rows: &mut [u64],
) -> Stepped
where
    R::Truth: AmongThree,
    B::Truth: TwoValued + AmongThree,
    ensures ledger { ledger_of result.sheet ≡ next_ledger (ledger_of sheet) (made_as call) }
    ensures performs { Performs (heard R.Truth.Truth.kind R.Truth.Truth.means R.Recording.word judged.now) (heard B.Truth.Truth.kind B.Truth.Truth.means B.Recording.word written.now) R.Truth.AmongThree.three B.Truth.AmongThree.three lacking lending (ledger_of sheet) call result.answer (lent_of (tables machine.old) cells.old bits.old rows.old) (lent_of (tables machine.new) cells.new bits.new rows.new) }
{
    let cell_count = lending.cells.min(cells.len() as u128) as usize;
    let bit_count = lending.cells.min(bits.len() as u128) as usize;
    let row_count = lending.rows.min(rows.len() as u128) as usize;
    let stepped = perform_on(
        sheet,
        call_of(call),
        judged,
        written,
        machine,
        &mut cells[..cell_count],
        &mut bits[..bit_count],
        &mut rows[..row_count],
    );
    let answer = told(call, &stepped.sheet, judged, lacking, stepped.answer);
    Stepped {
        sheet: stepped.sheet,
        answer,
    }
}

// Makes the call with the flags, on two-valued recordings.
fn on_flags<R: Recording<Truth = bool>>(
    sheet: Sheet,
    call: SheetCall,
    recordings: &[R],
    lending: Lending,
    machine: &mut Machine,
    flags: &mut [bool],
    bits: &mut [bool],
    rows: &mut [u64],
) -> Stepped
    ensures ledger { ledger_of result.sheet ≡ next_ledger (ledger_of sheet) (made_as call) }
    ensures performs { Performs (flags_heard (map R.Recording.word recordings.now)) (flags_heard (map R.Recording.word recordings.now)) raised raised NoRecording lending (ledger_of sheet) call result.answer (lent_of (tables machine.old) flags.old bits.old rows.old) (lent_of (tables machine.new) flags.new bits.new rows.new) }
{
    perform_with(
        sheet,
        call,
        Answer::NoRecording,
        recordings,
        recordings,
        lending,
        machine,
        flags,
        bits,
        rows,
    )
}

// Makes the call with the levels, on a gapped tape; no run is written out on it.
fn on_levels(
    sheet: Sheet,
    call: SheetCall,
    tape: &GappedTape,
    lending: Lending,
    machine: &mut Machine,
    levels: &mut [Ternary],
    bits: &mut [bool],
    rows: &mut [u64],
) -> Stepped
    ensures ledger { ledger_of result.sheet ≡ next_ledger (ledger_of sheet) (made_as call) }
    ensures performs { Performs (levels_heard (gapped_word tape.now ∷ [])) (flags_heard []) (λ p. p) raised NotTwoValued lending (ledger_of sheet) call result.answer (lent_of (tables machine.old) levels.old bits.old rows.old) (lent_of (tables machine.new) levels.new bits.new rows.new) }
{
    let none: [Tape; 0] = [];
    perform_with(
        sheet,
        call,
        Answer::NotTwoValued,
        std::slice::from_ref(tape),
        &none,
        lending,
        machine,
        levels,
        bits,
        rows,
    )
}

/// Makes the call on the sheet, with the recording of the bench, if there is one, and with what the bench lends.
pub fn perform(sheet: Sheet, call: SheetCall, machine: &mut Machine, bench: &mut Bench) -> Stepped
    ensures ledger { ledger_of result.sheet ≡ next_ledger (ledger_of sheet) (made_as call) }
    ensures performs { OnBench bench.old.recorded (ledger_of sheet) call result.answer (tables machine.old) (tables machine.new) bench.old bench.new }
{
    let Bench {
        recorded,
        flags,
        levels,
        bits,
        rows,
        lent,
    } = bench;
    let bits = bits.as_mut_slice();
    let rows = rows.as_mut_slice();
    match recorded {
        None => {
            let none: [Tape; 0] = [];
            let flags = flags.as_mut_slice();
            on_flags(sheet, call, &none, *lent, machine, flags, bits, rows)
        }
        Some(Recorded::Plain(tape)) => {
            let tapes = std::slice::from_ref(tape);
            let flags = flags.as_mut_slice();
            on_flags(sheet, call, tapes, *lent, machine, flags, bits, rows)
        }
        Some(Recorded::Gapped(tape)) => {
            let levels = levels.as_mut_slice();
            on_levels(sheet, call, tape, *lent, machine, levels, bits, rows)
        }
        Some(Recorded::Turning(wheel)) => {
            let wheels = std::slice::from_ref(wheel);
            let flags = flags.as_mut_slice();
            on_flags(sheet, call, wheels, *lent, machine, flags, bits, rows)
        }
    }
}
