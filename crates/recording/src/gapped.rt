use crate::sizes::Sizes;

pub mod calls;

/// A tape with lost masks: where a lost bit is set, the value is lost, else it is the mask's bit. It owns its masks;
/// those from stem + cycle on have no meaning.
#[derive(Clone, Copy)]
pub struct GappedTape {
    sizes: Sizes,
    // Arrays with places that are not read: a tape is Copy, which no vector is.
    masks: [u32; 320],
    lost: [u32; 320],
}
