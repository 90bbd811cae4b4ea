// What is looked at in a row, and from a row to the next: starts, equations and pairs.
ghost use Rattle.std.specs.Prelude.{◌≡◌, ℕ, ◌<◌, true, false, ◌&&◌, ◌||◌, length, Decides, slice_index_or};
ghost use Rattle.machine.specs.Machines.{tables};
ghost use Rattle.checker.specs.Moments.{gates_from, bits_from, is_met};
ghost use Rattle.laws.specs.Runs.{Starts, Equation};
ghost use Rattle.machine.specs.Tables.{variable_at, pair_at, variable_fits, pair_fits};

use crate::evaluation::bit_of;
use crate::moment::Moment;
use machine::gate::{Pair, Variable};
use machine::place::Machine;

// Whether variable j has its start.
fn starts(variable: Variable, j: usize, first: &Moment) -> bool
    requires { j < 64 }
    ensures { Decides result (Starts variable (bits_from first.now first.now j)) }
{
    match variable {
        Variable::Next(_) | Variable::Until(_, _) => true,
        Variable::Back(_, start) => bit_of(first.row, j) == start,
    }
}

// Whether every variable has its start.
pub(crate) fn all_start(machine: &Machine, first: &Moment) -> bool
    ensures { Decides result ((j : ℕ) → j < length (tables machine.now).variables → Starts (variable_at (tables machine.now).variables j) (bits_from first.now first.now j)) }
{
    machine
        .variables()
        .iter()
        .enumerate()
        .all(|(j, &variable)| starts(variable, j, first))
}

// Whether variable j keeps its equation from one moment to the next.
fn keeps(variable: Variable, j: usize, here: &Moment, there: &Moment) -> bool
    requires names { variable_fits 192 variable ≡ true }
    requires bit { j < 64 }
    ensures { Decides result (Equation (gates_from here.now there.now) variable (bits_from here.now there.now j) 0 1) }
{
    match variable {
        Variable::Next(a) => bit_of(here.row, j) == there.values[a as usize],
        Variable::Until(a, b) => {
            let due = here.values[b as usize] | (here.values[a as usize] & bit_of(there.row, j));
            bit_of(here.row, j) == due
        }
        Variable::Back(a, _) => bit_of(there.row, j) == here.values[a as usize],
    }
}

// Whether every variable keeps its equation.
pub(crate) fn all_keep(machine: &Machine, here: &Moment, there: &Moment) -> bool
    ensures { Decides result ((j : ℕ) → j < length (tables machine.now).variables → Equation (gates_from here.now there.now) (variable_at (tables machine.now).variables j) (bits_from here.now there.now j) 0 1) }
{
    machine
        .variables()
        .iter()
        .enumerate()
        .all(|(j, &variable)| keeps(variable, j, here, there))
}

// Whether the pair is met at a moment.
fn meets(pair: Pair, here: &Moment) -> bool
    requires { pair_fits 192 pair ≡ true }
    ensures { result ≡ is_met pair here.now }
{
    !here.values[pair.from as usize] | here.values[pair.to as usize]
}

// Notes which pairs are met at a moment, where it counts.
pub(crate) fn note_met(machine: &Machine, here: &Moment, counts: bool, met: &mut [bool; 64])
    ensures { (j : ℕ) → j < length (tables machine.now).pairs → slice_index_or met.new j false ≡ (slice_index_or met.old j false || (counts && is_met (pair_at (tables machine.now).pairs j) here.now)) }
{
    // by index: what a zip over `iter_mut` has written is not known after it
    for (k, &pair) in machine.pairs().iter().enumerate() {
        met[k] |= counts & meets(pair, here);
    }
}

// Whether every pair was met.
pub(crate) fn all_met(machine: &Machine, met: &[bool; 64]) -> bool
    ensures { Decides result ((j : ℕ) → j < length (tables machine.now).pairs → slice_index_or met.now j false ≡ true) }
{
    met[..machine.pairs().len()].iter().all(|&is_met| is_met)
}
