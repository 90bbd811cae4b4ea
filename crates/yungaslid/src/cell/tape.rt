// A gapped tape that answers cells.
ghost use Rattle.yungaslid.specs.Tapes.{cell_word};

use crate::cell::Cell;
use recording::gapped::GappedTape;
use recording::recording::Recording;

/// A gapped tape whose values are told as bytes.
#[derive(Clone, Copy)]
pub struct CellTape {
    pub tape: GappedTape,
}

impl Recording for CellTape {
    type Truth = Cell;

    ghost word = { cell_word };

    fn signals(&self) -> u32 {
        self.tape.signals()
    }

    fn stem(&self) -> u32 {
        self.tape.stem()
    }

    fn cycle(&self) -> u32 {
        self.tape.cycle()
    }

    fn value(&self, signal: u32, sample: u32) -> Option<Cell> {
        self.tape.value(signal, sample).map(Cell::from)
    }
}
