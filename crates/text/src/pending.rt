// The guard over a draft: lines that are written through it are taken back unless the whole rule is accepted.
ghost use Rattle.std.specs.Prelude.{◌≡◌, length, take};
ghost use Rattle.sheet.specs.Sheets.{lines_of};

use sheet::draft::Draft;

/// A draft that lines are written into. Let go, it puts the draft's count back to what it was.
pub struct Pending<'a> {
    pub draft: &'a mut Draft,
    kept: usize,
}

impl Drop for Pending<'_> {
    fn drop(self)
        ensures { lines_of self.exit.0.now ≡ take self.entry.kept (lines_of self.entry.draft.now) }
    {
        let kept = self.kept;
        self.draft.truncate(kept);
        let Pending { draft: _, kept: _ } = self;
    }
}

impl<'a> Pending<'a> {
    /// A guard that goes back to the lines that the draft has now.
    pub fn new(draft: &'a mut Draft) -> Pending<'a>
        ensures kept { result.kept ≡ length (lines_of draft.old) }
        ensures holds { result.draft.now ≡ draft.old }
        ensures lends { result.draft.ghost_name ≡ draft.entry.ghost_name }
    {
        let kept = draft.len();
        Pending { draft, kept }
    }

    /// Leaves the lines in the draft.
    pub fn accept(self)
        ensures { lines_of self.exit.0.now ≡ lines_of self.entry.draft.now }
    {
        let Pending { draft: _, kept: _ } = self;
    }
}
