// Makes a call on a bench.
ghost use Rattle.std.specs.Prelude.{◌≡◌, IfOk, OnErr};
ghost use Rattle.machine.specs.Machines.{tables};
ghost use Rattle.session.specs.Answering.{Answers};

use crate::answer::Answer;
use crate::bench::making::{gapped_of, tape_of, wheel_of};
use crate::bench::{Bench, Recorded};
use asked::call::BenchCall;
use machine::place::Machine;
use recording::refusal::{TapeRefusal, WheelRefusal};
use std::alloc::{AllocError, Global};

impl Bench {
    /// Makes the call, for which the machine place is only read; where memory is short, it changes nothing.
    pub fn answer(
        &mut self,
        heap: Global,
        call: BenchCall,
        machine: &Machine,
    ) -> Result<Answer, AllocError>
        ensures answers { IfOk result (Answers call (tables machine.now) self.old self.new) }
        ensures short { OnErr result (self.new ≡ self.old) }
    {
        match call {
            BenchCall::Tape(sizes, masks) => {
                let made = tape_of(heap, sizes, masks.as_slice())?;
                Ok(self.put(made.map(Recorded::Plain).map_err(TapeRefusal::number)))
            }
            BenchCall::Gapped(sizes, masks, lost) => {
                let made = gapped_of(heap, sizes, masks.as_slice(), lost.as_slice())?;
                Ok(self.put(made.map(Recorded::Gapped).map_err(TapeRefusal::number)))
            }
            BenchCall::Wheel(teeth, gap, start) => {
                let made = wheel_of(teeth, gap, start);
                Ok(self.put(made.map(Recorded::Turning).map_err(WheelRefusal::number)))
            }
            BenchCall::Cells(count) => {
                self.lent.cells = count;
                Ok(Answer::Done)
            }
            BenchCall::Rows(count) => {
                self.lent.rows = count;
                Ok(Answer::Done)
            }
            BenchCall::Check(back, rows) => self.check(heap, machine, back, rows.as_slice()),
        }
    }
}
