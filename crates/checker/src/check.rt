// Checks a run: rows of variable bits, after the last of which comes row back.
ghost use Rattle.std.specs.Prelude.{◌≡◌, ◌<◌, ◌≤◌, length, Decides};
ghost use Rattle.recording.specs.Tape.{Within};
ghost use Rattle.checker.specs.CheckAnswer.{Accepted, Answer, Shape};
ghost use Rattle.laws.specs.Checks.{HasGateSignals};
ghost use Rattle.machine.specs.Machines.{tables};
ghost use Rattle.laws.specs.Runs.{after};

use crate::evaluation::moment_of;
use crate::refusal::CheckRefusal;
use crate::steps::{all_keep, all_met, all_start, note_met};
use machine::place::Machine;
use meaning::naming::has_signals;
use recording::recording::Recording;
use recording::truth::{Truth, TwoValued};

// Whether n rows with row back after the last may be a run on the recording.
fn has_shape<R: Recording>(recording: &R, n: usize, back: usize) -> bool
    ensures { Decides result (Shape (R.word recording.now) n back) }
{
    n <= 4352
        && (recording.stem() as usize..n).contains(&back)
        && (n - back) % recording.cycle() as usize == 0
}

// Whether no row has a bit at or above the variable count.
fn no_stray(rows: &[u64], variables: usize) -> bool
    requires { variables ≤ 64 }
    ensures { Decides result (Within variables rows.now) }
{
    let limit = 1u128 << variables;
    rows.iter().all(|&row| u128::from(row) < limit)
}

// The row that comes after row i of n.
fn after_row(n: usize, back: usize, i: usize) -> usize
    requires { i < n }
    ensures { result ≡ after n back i }
{
    if i + 1 < n { i + 1 } else { back }
}

// Goes over the rows once, from each to the next, and notes which pairs are met from row back on.
fn accepts<R: Recording>(machine: &Machine, recording: &R, rows: &[u64], back: usize) -> bool
where
    R::Truth: TwoValued,
    requires named { HasGateSignals (tables machine.now).gates (R.Recording.word recording.now).signals }
    requires shape { Shape (R.Recording.word recording.now) (length rows.now) back }
    ensures { Decides result (Accepted R.Truth.Truth.kind R.Truth.Truth.means (tables machine.now) (R.Recording.word recording.now) rows.now back) }
{
    // the question's contract: the kind has no third value
    let _ = R::Truth::no().is_yes();
    let root = machine.root();
    let first = moment_of(machine, recording, rows, 0);
    if !first.values[root as usize] || !all_start(machine, &first) {
        return false;
    }
    // one for each pair, in front of unused ones: the check allocates nothing
    let mut met = [false; 64];
    let mut here = first;
    // by index: what is read is the row that comes after row i
    for i in 0..rows.len() {
        note_met(machine, &here, back <= i, &mut met);
        let next = after_row(rows.len(), back, i);
        let there = moment_of(machine, recording, rows, next);
        if !all_keep(machine, &here, &there) {
            return false;
        }
        here = there;
    }
    all_met(machine, &met)
}

/// Whether the rows are an accepting run of the machine on the recording: bit j of row t is variable j, and after the
/// last row comes row `back`, so that the run is endless.
pub fn check<R: Recording>(
    machine: &Machine,
    recording: &R,
    rows: &[u64],
    back: usize,
) -> Result<bool, CheckRefusal>
where
    R::Truth: TwoValued,
    ensures { Answer R.Truth.Truth.kind R.Truth.Truth.means (tables machine.now) (R.Recording.word recording.now) rows.now back result }
{
    if !has_signals(machine.gates(), recording) {
        return Err(CheckRefusal::NoSignal);
    }
    if !has_shape(recording, rows.len(), back) {
        return Err(CheckRefusal::BadShape);
    }
    if !no_stray(rows, machine.variables().len()) {
        return Err(CheckRefusal::StrayBit);
    }
    Ok(accepts(machine, recording, rows, back))
}
