ghost use Rattle.std.specs.Prelude.{◌+◌};
ghost use Rattle.recording.specs.Word.{Sizes};

pub mod calls;

/// A square wave of one signal: high for `on` samples and low for `off` by turns.
#[derive(Drop)]
pub struct Wave<T> {
    high: T,
    low: T,
    on: u32,
    off: u32,
    ghost sizes: { Sizes 1 0 (on + off) },
}
