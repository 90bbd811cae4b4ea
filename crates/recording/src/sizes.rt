// The sizes of a tape, and masks of these sizes.
ghost use Rattle.std.specs.Prelude.{◌≡◌, ◌+◌, ◌^◌, ◌<◌, All, IsTrue, IsOk, IfOk, ◌↔◌, take};
ghost use Rattle.recording.specs.Tape.{Fits, bit, place};
ghost use Rattle.recording.specs.Word.{Sizes as InRange};

use crate::refusal::TapeRefusal;

/// The signals, the samples of the stem and those of a cycle, which a recording may have.
#[derive(Clone, Copy)]
pub(crate) struct Sizes {
    pub(crate) signals: u32,
    pub(crate) stem: u32,
    pub(crate) cycle: u32,
    ghost in_range: { InRange signals stem cycle },
}

impl Sizes {
    ghost use Rattle.recording.specs.Made.{AreSizes};

    /// These sizes, or the refusal of one that is out of its range.
    pub(crate) fn new(signals: u32, stem: u32, cycle: u32) -> Result<Sizes, TapeRefusal>
        ensures in_range { IsOk result ↔ InRange signals stem cycle }
        ensures are { IfOk result (AreSizes signals stem cycle) }
    {
        if !(1..=32).contains(&signals) || stem > 256 || !(1..=64).contains(&cycle) {
            return Err(TapeRefusal::BadTape);
        }
        Ok(Sizes {
            signals,
            stem,
            cycle,
        })
    }

    /// A copy of the masks, in front of zeros; or the refusal of a slice that is not stem + cycle long, or of a bit at
    /// or above the signal count.
    pub(crate) fn own(self, masks: &[u32]) -> Result<[u32; 320], TapeRefusal>
        ensures fits { IsOk result ↔ Fits self.signals self.stem self.cycle masks.now }
        ensures copied { IfOk result (λ own. take (self.stem + self.cycle) own ≡ masks.now) }
    {
        if masks.len() != (self.stem + self.cycle) as usize || !self.bits_fit(masks) {
            return Err(TapeRefusal::BadTape);
        }
        let mut own = [0; 320];
        own[..masks.len()].copy_from_slice(masks);
        Ok(own)
    }

    // Whether no mask has a bit at or above the signal count.
    fn bits_fit(self, masks: &[u32]) -> bool
        ensures { IsTrue result ↔ All (λ mask. mask < 2 ^ self.signals) masks.now }
    {
        let limit = 1u64 << self.signals;
        masks.iter().all(|&mask| u64::from(mask) < limit)
    }

    /// The number of the mask that is read for a sample.
    pub(crate) fn mask_number(self, sample: u32) -> usize
        ensures is { result ≡ place self.stem self.cycle sample }
        ensures below { result < self.stem + self.cycle }
    {
        if sample < self.stem + self.cycle {
            sample as usize
        } else {
            (self.stem + (sample - self.stem) % self.cycle) as usize
        }
    }
}

/// Whether a mask has the bit of a signal.
pub(crate) fn has_bit(mask: u32, signal: u32) -> bool
    requires { signal < 32 }
    ensures { result ≡ bit mask signal }
{
    (mask >> signal) % 2 == 1
}
