// What a customer can tell from the contracts of the calls alone.
#![tactic(auto)]

ghost use Rattle.std.specs.Prelude.{◌≡◌, ◌≤◌, length, take, IfOk, slice_index_or};
ghost use Rattle.recording.specs.Kinds.{three, two};
ghost use Rattle.recording.specs.Made.{gapped_word, tape_word};
ghost use Rattle.sheet.specs.Ledger.{start};
ghost use Rattle.sheet.specs.Sheets.{sealed_lines};
ghost use Rattle.laws.specs.Laws.{Fills, Settles};
ghost use Rattle.machine.specs.Machines.{tables};
ghost use Rattle.run.specs.Histories.{ledger_of};
ghost use Rattle.run.specs.Story.{heard};
ghost use Rattle.customer.specs.Alike.{Alike};
ghost use Rattle.customer.specs.Checked.{RunChecked};
ghost use Rattle.customer.specs.First.{ToldFirst};
ghost use Rattle.customer.specs.Last.{LastMachine};

use checker::check::check;
use laws::translation::filling;
use machine::place::Machine;
use machine::translator::translate;
use meaning::evaluator::judge;
use meaning::refusal::Refusal;
use recording::gapped::GappedTape;
use recording::recording::Recording;
use recording::tape::Tape;
use recording::truth::{Ternary, TwoValued};
use run::answer::Answer;
use run::call::Call;
use run::form::Sheet;
use run::history::carry_out;
use run::refusal::WriteRefusal;
use run::writing::write_out;
use sheet::sealed::Sealed;

/// Seals a sheet of one line, signal 0, and judges the first recording: the verdict is that signal at sample 0.
pub fn first_signal<R: Recording, B: Recording>(
    judged: &[R],
    written: &[B],
    machine: &mut Machine,
    cells: &mut [R::Truth],
    bits: &mut [B::Truth],
    rows: &mut [u64],
    answers: &mut [Answer<R::Truth, B::Truth>],
)
where
    B::Truth: TwoValued,
    ensures { 3 ≤ length answers.old → ToldFirst (heard R.Truth.Truth.kind R.Truth.Truth.means R.Recording.word judged.now) cells.old (slice_index_or answers.new 2 Answer.Done) }
{
    let calls = [Call::Write(1, 0, 0), Call::Seal, Call::Judge(0)];
    let _ = carry_out(
        Sheet::new(),
        &calls,
        judged,
        written,
        machine,
        cells,
        bits,
        rows,
        answers,
    );
}

/// Carries out any calls on gapped recordings and full ones: a verdict that is not lost on a gapped one is that of every
/// full one that fills its gaps, wherever in the history the same sealed lines were judged and their run was written out.
/// And where the last call translated, the machine place has an accepting run exactly when the rule holds.
pub fn gapped_and_full<R: Recording<Truth = Ternary>, B: Recording>(
    begun: Sheet,
    calls: &[Call],
    judged: &[R],
    written: &[B],
    machine: &mut Machine,
    cells: &mut [Ternary],
    bits: &mut [B::Truth],
    rows: &mut [u64],
    answers: &mut [Answer<Ternary, B::Truth>],
) -> Sheet
where
    B::Truth: TwoValued,
    ensures alike { Alike B.Truth.Truth.kind B.Truth.Truth.means (heard three (λ p. p) R.Recording.word judged.now).words (heard B.Truth.Truth.kind B.Truth.Truth.means B.Recording.word written.now).words (ledger_of begun) (take (length answers.old) calls.now) (take (length calls.now) answers.new) }
    ensures machine { LastMachine B.Truth.Truth.kind (tables machine.new) (ledger_of begun) (take (length answers.old) calls.now) }
{
    carry_out(
        begun, calls, judged, written, machine, cells, bits, rows, answers,
    )
}

/// Judges a sheet on a gapped tape, and writes out its run on a full one. Where this fills the gaps, a verdict that is not
/// lost is the same.
pub fn gapped_then_full(
    sheet: &Sealed,
    gapped: &GappedTape,
    full: &Tape,
    lost: &mut [Ternary],
    bits: &mut [bool],
    rows: &mut [u64],
) -> Result<(Ternary, bool), WriteRefusal>
    ensures { IfOk result (λ p. Fills two (sealed_lines sheet.now) (gapped_word gapped.now) (tape_word full.now) → Settles two p.0 p.1) }
{
    filling::<bool>();
    let verdict = judge(sheet, gapped, lost)?;
    let written = write_out(sheet, full, bits, rows)?;
    Ok((verdict, written.verdict))
}

/// Writes out the run of a sheet, translates the sheet, and checks the run: the check does not refuse it, and says yes
/// exactly when the rule holds at sample 0.
pub fn run_then_check<B: Recording>(
    sheet: &Sealed,
    recording: &B,
    machine: &mut Machine,
    cells: &mut [B::Truth],
    rows: &mut [u64],
) -> Result<bool, WriteRefusal>
where
    B::Truth: TwoValued,
    ensures { RunChecked B.Truth.Truth.kind B.Truth.Truth.means (sealed_lines sheet.now) (B.Recording.word recording.now) cells.old cells.new rows.old rows.new result }
{
    let written = write_out(sheet, recording, cells, rows)?;
    translate(sheet, machine);
    let accepting = check(machine, recording, &rows[..written.rows], written.back).unwrap();
    Ok(accepting)
}
