ghost use Rattle.recording.specs.Wheel.{Wheels};

pub mod calls;

/// A toothed wheel: signal 0 tells the teeth from the gap, signal 1 the first tooth.
#[derive(Clone, Copy)]
pub struct Wheel {
    teeth: u32,
    gap: u32,
    start: u32,
    ghost fits: { Wheels teeth gap start },
}
