// Checks a run, given by the numbers of a script, on the recording of a bench.
ghost use Rattle.std.specs.Prelude.{◌≡◌, ℕ, List, length, IfOk};
ghost use Rattle.recording.specs.Tape.{Within};
ghost use Rattle.checker.specs.CheckAnswer.{Answer as CheckAnswer};
ghost use Rattle.machine.specs.Machines.{tables};
ghost use Rattle.session.specs.Checking.{told as told_as, Checks, OnRecorded};

use crate::answer::Answer;
use crate::bench::{Bench, Recorded};
use crate::narrow::{narrowed, place};
use checker::check::check;
use checker::refusal::CheckRefusal;
use machine::place::Machine;
use recording::recording::Recording;
use recording::truth::TwoValued;
use std::alloc::{AllocError, Global};

fn told(checked: Result<bool, CheckRefusal>) -> Answer
    ensures { result ≡ told_as checked }
{
    checked.map_or_else(
        |refusal| Answer::Refused(refusal.number()),
        Answer::Accepting,
    )
}

// What checking any rows answers that are as many as these and have a stray bit.
fn check_stray<R: Recording>(
    machine: &Machine,
    recording: &R,
    blank: &[u64],
    back: usize,
) -> Result<bool, CheckRefusal>
where
    R::Truth: TwoValued,
    ensures { (rows : List ℕ) → length rows ≡ length blank.now → (Within (length (tables machine.now).variables) rows → ⊥) → CheckAnswer R.Truth.Truth.kind R.Truth.Truth.means (tables machine.now) (R.Recording.word recording.now) rows back result }
{
    check(machine, recording, blank, back).and_then(|_| Err(CheckRefusal::StrayBit))
}

// Rows and a place of any size.
fn check_numbers<R: Recording>(
    heap: Global,
    machine: &Machine,
    recording: &R,
    rows: &[u128],
    back: u128,
) -> Result<Answer, AllocError>
where
    R::Truth: TwoValued,
    ensures { IfOk result (Checks R.Truth.Truth.kind R.Truth.Truth.means (tables machine.now) (R.Recording.word recording.now) rows.now back) }
{
    match narrowed::<u64>(heap, rows)? {
        Some(rows) => Ok(told(check(machine, recording, rows.as_slice(), place(back)))),
        None => {
            let blank = vec![in heap; 0u64; rows.len()]?;
            Ok(told(check_stray(machine, recording, blank.as_slice(), place(back))))
        }
    }
}

impl Bench {
    // Whether the rows are an accepting run of the machine on the recording, with row `back` after the last.
    pub(crate) fn check(
        &self,
        heap: Global,
        machine: &Machine,
        back: u128,
        rows: &[u128],
    ) -> Result<Answer, AllocError>
        ensures { IfOk result (OnRecorded self.now.recorded (tables machine.now) rows.now back) }
    {
        match self.recorded {
            None => Ok(Answer::NoRecording),
            Some(Recorded::Plain(tape)) => check_numbers(heap, machine, &tape, rows, back),
            Some(Recorded::Gapped(_)) => Ok(Answer::NotTwoValued),
            Some(Recorded::Turning(wheel)) => check_numbers(heap, machine, &wheel, rows, back),
        }
    }
}
