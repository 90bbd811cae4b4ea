// Making a wave, and what it answers.
ghost use Rattle.std.specs.Prelude.{◌≡◌};
ghost use Rattle.foreign.specs.Made.{WaveMade, wave_word};

use crate::wave::Wave;
use recording::recording::Recording;
use recording::truth::Truth;

impl<T: Truth> Wave<T> {
    /// The wave of these values and lengths, or none where a turn does not take 1 to 64 samples.
    pub fn new(high: T, low: T, on: u32, off: u32) -> Option<Wave<T>>
        ensures { WaveMade high low on off result }
    {
        let turn = on.checked_add(off)?;
        if !(1..=64).contains(&turn) {
            return None;
        }
        Some(Wave { high, low, on, off })
    }
}

impl<T: Truth> Recording for Wave<T> {
    type Truth = T;

    ghost word = { wave_word };

    fn signals(&self) -> u32 {
        1
    }

    fn stem(&self) -> u32 {
        0
    }

    fn cycle(&self) -> u32 {
        self.on + self.off
    }

    fn value(&self, signal: u32, sample: u32) -> Option<T> {
        if signal > 0 {
            return None;
        }
        if sample % self.cycle() < self.on {
            Some(self.high)
        } else {
            Some(self.low)
        }
    }
}
