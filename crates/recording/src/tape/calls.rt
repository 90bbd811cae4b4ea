// Making a tape, and what it answers.
ghost use Rattle.std.specs.Prelude.{◌≡◌};
ghost use Rattle.recording.specs.Made.{TapeMade, tape_word};

use crate::recording::Recording;
use crate::refusal::TapeRefusal;
use crate::sizes::{Sizes, has_bit};
use crate::tape::Tape;

impl Tape {
    /// The tape of these sizes and masks, or the refusal of what does not fit.
    pub fn new(signals: u32, stem: u32, cycle: u32, masks: &[u32]) -> Result<Tape, TapeRefusal>
        ensures { TapeMade signals stem cycle masks.now result }
    {
        let sizes = Sizes::new(signals, stem, cycle)?;
        Ok(Tape {
            sizes,
            masks: sizes.own(masks)?,
        })
    }
}

impl Recording for Tape {
    type Truth = bool;

    ghost word = { tape_word };

    fn signals(&self) -> u32 {
        self.sizes.signals
    }

    fn stem(&self) -> u32 {
        self.sizes.stem
    }

    fn cycle(&self) -> u32 {
        self.sizes.cycle
    }

    fn value(&self, signal: u32, sample: u32) -> Option<bool> {
        if signal >= self.sizes.signals {
            return None;
        }
        let number = self.sizes.mask_number(sample);
        Some(has_bit(self.masks[number], signal))
    }
}
