// A new bench, and the recordings that are made from the numbers of a script.
ghost use Rattle.std.specs.Prelude.{◌≡◌, IfOk};
ghost use Rattle.recording.specs.Made.{TapeMade, GappedMade, WheelMade};
ghost use Rattle.session.specs.Benches.{Fresh, put as put_on};

use crate::answer::Answer;
use crate::bench::{Bench, Lending, Recorded};
use crate::narrow::{narrowed, size};
use asked::call::TapeSizes;
use recording::gapped::GappedTape;
use recording::refusal::{TapeRefusal, WheelRefusal};
use recording::tape::Tape;
use recording::truth::Ternary;
use recording::wheel::Wheel;
use std::alloc::{AllocError, Global};

// The tape of these numbers, or the refusal of what does not fit.
pub(crate) fn tape_of(
    heap: Global,
    sizes: TapeSizes,
    masks: &[u128],
) -> Result<Result<Tape, TapeRefusal>, AllocError>
    ensures { IfOk result (TapeMade sizes.signals sizes.stem sizes.cycle masks.now) }
{
    let Some(masks) = narrowed::<u32>(heap, masks)? else {
        return Ok(Err(TapeRefusal::BadTape));
    };
    Ok(Tape::new(
        size(sizes.signals),
        size(sizes.stem),
        size(sizes.cycle),
        masks.as_slice(),
    ))
}

// The gapped tape of these numbers, or the refusal of what does not fit.
pub(crate) fn gapped_of(
    heap: Global,
    sizes: TapeSizes,
    masks: &[u128],
    lost: &[u128],
) -> Result<Result<GappedTape, TapeRefusal>, AllocError>
    ensures { IfOk result (GappedMade sizes.signals sizes.stem sizes.cycle masks.now lost.now) }
{
    let Some(masks) = narrowed::<u32>(heap, masks)? else {
        return Ok(Err(TapeRefusal::BadTape));
    };
    let Some(lost) = narrowed::<u32>(heap, lost)? else {
        return Ok(Err(TapeRefusal::BadTape));
    };
    Ok(GappedTape::new(
        size(sizes.signals),
        size(sizes.stem),
        size(sizes.cycle),
        masks.as_slice(),
        lost.as_slice(),
    ))
}

// The wheel of these numbers, or the refusal of numbers out of range.
pub(crate) fn wheel_of(teeth: u128, gap: u128, start: u128) -> Result<Wheel, WheelRefusal>
    ensures { WheelMade teeth gap start result }
{
    Wheel::new(size(teeth), size(gap), size(start))
}

impl Bench {
    /// No recording yet; so many cells of each kind and as many to write out with, all no, and so many rows, all zero;
    /// all of them lent.
    pub fn new(heap: Global, cells: usize, rows: usize) -> Result<Bench, AllocError>
        ensures { IfOk result (Fresh cells rows) }
    {
        let flags = vec![in heap; false; cells]?;
        let levels = vec![in heap; Ternary::No; cells]?;
        let bits = vec![in heap; false; cells]?;
        let zeros = vec![in heap; 0u64; rows]?;
        Ok(Bench {
            recorded: None,
            flags,
            levels,
            bits,
            rows: zeros,
            lent: Lending {
                cells: cells as u128,
                rows: rows as u128,
            },
        })
    }

    // The recording is this one from now on; a refusal, by its number, leaves the recording that was there.
    pub(crate) fn put(&mut self, made: Result<Recorded, u8>) -> Answer
        ensures { (result, self.new) ≡ put_on made self.old }
    {
        match made {
            Ok(recorded) => {
                self.recorded = Some(recorded);
                Answer::Done
            }
            Err(number) => Answer::Refused(number),
        }
    }
}
