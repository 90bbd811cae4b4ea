// Making a wheel, and what it answers.
ghost use Rattle.std.specs.Prelude.{◌≡◌};
ghost use Rattle.recording.specs.Made.{WheelMade, wheel_word};

use crate::recording::Recording;
use crate::refusal::WheelRefusal;
use crate::wheel::Wheel;

impl Wheel {
    /// The wheel of so many teeth, so many of them missing, that begins at `start`; or the refusal of numbers out of
    /// range.
    pub fn new(teeth: u32, gap: u32, start: u32) -> Result<Wheel, WheelRefusal>
        ensures { WheelMade teeth gap start result }
    {
        if !(2..=64).contains(&teeth) || !(1..teeth).contains(&gap) || start >= teeth {
            return Err(WheelRefusal::BadWheel);
        }
        Ok(Wheel { teeth, gap, start })
    }
}

impl Recording for Wheel {
    type Truth = bool;

    ghost word = { wheel_word };

    fn signals(&self) -> u32 {
        2
    }

    fn stem(&self) -> u32 {
        0
    }

    fn cycle(&self) -> u32 {
        self.teeth
    }

    fn value(&self, signal: u32, sample: u32) -> Option<bool> {
        let tooth = (sample as u64 + self.start as u64) % self.teeth as u64;
        match signal {
            0 => Some(tooth < (self.teeth - self.gap) as u64),
            1 => Some(tooth == 0),
            _ => None,
        }
    }
}
