// What the gates of a machine are at one row of a run.
ghost use Rattle.std.specs.Prelude.{◌≡◌, ◌<◌, ◌≤◌, true, length};
ghost use Rattle.recording.specs.Tape.{bit};
ghost use Rattle.recording.specs.Word.{meant};
ghost use Rattle.laws.specs.Checks.{HasGateSignals};
ghost use Rattle.machine.specs.Machines.{tables};
ghost use Rattle.checker.specs.Moments.{MomentAt, listed};
ghost use Rattle.laws.specs.Runs.{Reads};
ghost use Rattle.machine.specs.Tables.{Names, gate_fits};

use crate::moment::Moment;
use machine::gate::Gate;
use machine::place::Machine;
use recording::recording::Recording;
use recording::truth::TwoValued;

// Bit `place` of a row. A public one, for masks too, would have to test `place` at each call.
pub(crate) fn bit_of(row: u64, place: usize) -> bool
    requires { place < 64 }
    ensures { result ≡ bit row place }
{
    (row >> place) % 2 == 1
}

// A gate at a sample, where `values` has the earlier gates.
fn gate_value<R: Recording>(
    gate: Gate,
    recording: &R,
    sample: u32,
    row: u64,
    values: &[bool; 192],
) -> bool
where
    R::Truth: TwoValued,
    requires fits { gate_fits 192 64 gate ≡ true }
    requires named { Names (R.Recording.word recording.now).signals gate }
    ensures { Reads R.Truth.Truth.kind (meant R.Truth.Truth.means (R.Recording.word recording.now)) (λ j _. bit row j) (listed values.now) gate sample result }
{
    match gate {
        Gate::Const(bit) => bit,
        Gate::Signal(signal) => recording.value(signal as u32, sample).unwrap().is_yes(),
        Gate::Var(variable) => bit_of(row, variable as usize),
        Gate::Not(a) => !values[a as usize],
        Gate::And(a, b) => values[a as usize] & values[b as usize],
        Gate::Or(a, b) => values[a as usize] | values[b as usize],
    }
}

// Row i with its gates.
pub(crate) fn moment_of<R: Recording>(
    machine: &Machine,
    recording: &R,
    rows: &[u64],
    i: usize,
) -> Moment
where
    R::Truth: TwoValued,
    requires named { HasGateSignals (tables machine.now).gates (R.Recording.word recording.now).signals }
    requires inside { i < length rows.now }
    requires few { length rows.now ≤ 4352 }
    ensures { MomentAt R.Truth.Truth.kind (tables machine.now).gates (meant R.Truth.Truth.means (R.Recording.word recording.now)) rows.now i result }
{
    let row = rows[i];
    let mut values = [false; 192];
    for (k, &gate) in machine.gates().iter().enumerate() {
        values[k] = gate_value(gate, recording, i as u32, row, &values);
    }
    Moment { row, values }
}
