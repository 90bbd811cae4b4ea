use crate::gate::{Gate, Pair, Variable};
use crate::work::table::Table;

pub mod filling;
pub(crate) mod table;

// A machine while it is filled, with the gate of each line so far.
#[derive(Drop)]
pub(crate) struct Work {
    pub(crate) gates: Table<Gate, 192>,
    pub(crate) variables: Table<Variable, 64>,
    pub(crate) pairs: Table<Pair, 64>,
    pub(crate) places: [u8; 64],
}
