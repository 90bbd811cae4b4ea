ghost use Rattle.std.specs.Prelude.{◌≡◌, ℕ, ◌<◌, ◌≤◌, true, length, slice_index_or};
ghost use Rattle.sheet.specs.Table.{fits, blank};

use crate::draft::lines::Lines;

pub mod calls;
pub(crate) mod lines;

/// A sheet that takes lines and gives them up.
#[derive(Drop)]
pub struct Draft {
    lines: Lines,
    ghost room: { length lines ≤ 64 },
    ghost lower: { (k : ℕ) → k < length lines → fits k (slice_index_or lines k blank) ≡ true },
}
