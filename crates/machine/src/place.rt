ghost use Rattle.std.specs.Prelude.{◌≡◌, ◌≤◌, length};
ghost use Rattle.machine.specs.Tables.{IsSound, counted};

use crate::gate::{Gate, Pair, Variable};

pub mod reading;

/// The machine place. What stands in an array past its count has no meaning.
#[derive(Clone, Copy)]
pub struct Machine {
    pub(crate) gates: [Gate; 192],
    pub(crate) gate_count: usize,
    pub(crate) variables: [Variable; 64],
    pub(crate) variable_count: usize,
    pub(crate) pairs: [Pair; 64],
    pub(crate) pair_count: usize,
    pub(crate) root: u8,
    ghost sized: { (length gates ≡ 192) × (length variables ≡ 64) × (length pairs ≡ 64) },
    ghost within: { (gate_count ≤ 192) × (variable_count ≤ 64) × (pair_count ≤ 64) },
    ghost sound: { IsSound (counted gates gate_count variables variable_count pairs pair_count root) },
}
