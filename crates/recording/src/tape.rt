use crate::sizes::Sizes;

pub mod calls;

/// A tape: bit i of mask t is signal i at sample t. It owns its masks; those from stem + cycle on have no meaning.
#[derive(Clone, Copy)]
pub struct Tape {
    sizes: Sizes,
    // An array with places that are not read: a tape is Copy, which no vector is.
    masks: [u32; 320],
}
