ghost use Rattle.std.specs.Prelude.{◌<◌, length};

use crate::draft::Draft;
use crate::refusal::Refusal;

pub mod calls;

/// A sheet of at least one line that neither takes lines nor gives them up.
#[derive(Drop)]
pub struct Sealed {
    draft: Draft,
    ghost some: { 0 < length draft.lines },
}

/// A draft that was not sealed, handed back as it was, and why.
#[derive(Drop)]
pub struct Unsealed {
    pub draft: Draft,
    pub refusal: Refusal,
}
