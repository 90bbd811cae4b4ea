// A new sheet.
ghost use Rattle.std.specs.Prelude.{◌≡◌};
ghost use Rattle.sheet.specs.Ledger.{start};
ghost use Rattle.run.specs.Histories.{ledger_of};

use crate::form::Sheet;
use sheet::draft::Draft;

impl Sheet {
    /// The empty draft.
    pub fn new() -> Sheet
        ensures { ledger_of result ≡ start }
    {
        Sheet::Open(Draft::new())
    }
}
