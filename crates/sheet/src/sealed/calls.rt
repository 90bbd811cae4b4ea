// Seal and reopen, and what the readers of a sealed sheet need.
ghost use Rattle.std.specs.Prelude.{◌≡◌, ◌<◌, ◌≤◌, length};
ghost use Rattle.sheet.specs.Ledger.{fed, Done, Seal, Reopen};
ghost use Rattle.sheet.specs.Sheets.{sealed_lines, drafted, shut, sealing};
ghost use Rattle.sheet.specs.Table.{Sheet};

use crate::draft::Draft;
use crate::line::Line;
use crate::refusal::Refusal;
use crate::sealed::{Sealed, Unsealed};

impl Draft {
    /// Turns the draft into a sealed sheet; one that has no line is handed back.
    pub fn seal(self) -> Result<Sealed, Unsealed>
        ensures { sealing result ≡ fed (drafted self) Seal }
    {
        if self.is_empty() {
            return Err(Unsealed {
                draft: self,
                refusal: Refusal::Empty,
            });
        }
        Ok(Sealed { draft: self })
    }
}

impl Sealed {
    /// The lines, in order: 1 to 64, whose operands name lower lines.
    pub fn lines(&self) -> &[Line]
        ensures are { result.now ≡ sealed_lines self.now }
        ensures sheet { Sheet result.now }
        ensures some { 0 < length result.now }
        ensures few { length result.now ≤ 64 }
    {
        self.draft.lines()
    }

    /// Turns the sealed sheet back into a draft of the same lines.
    pub fn reopen(self) -> Draft
        ensures { (Done, drafted result) ≡ fed (shut self) Reopen }
    {
        let Sealed { draft } = self;
        draft
    }
}
