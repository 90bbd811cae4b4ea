// The run check as a caller has it, on tapes.
#![tactic(auto)]

ghost use Rattle.recording.specs.Kinds.{two};
ghost use Rattle.recording.specs.Made.{tape_word};
ghost use Rattle.checker.specs.CheckAnswer.{Answer};
ghost use Rattle.machine.specs.Machines.{tables};

use checker::check::check;
use checker::refusal::CheckRefusal;
use machine::place::Machine;
use recording::tape::Tape;

#[cfg(test)]
mod tests;

/// Checks a run on a tape.
pub fn check_on_tape(
    machine: &Machine,
    tape: &Tape,
    rows: &[u64],
    back: usize,
) -> Result<bool, CheckRefusal>
    ensures { Answer two (λ b. b) (tables machine.now) (tape_word tape.now) rows.now back result }
{
    check(machine, tape, rows, back)
}
