// The sheet to be worked on.
use sheet::draft::Draft;
use sheet::sealed::Sealed;

// The sheet of these lines, each a code and two operands; none where one is refused.
pub(crate) fn sheet_of(lines: &[u8]) -> Option<Sealed> {
    let mut draft = Draft::new();
    for &[code, first, second] in lines.as_chunks::<3>().0 {
        draft.write(code, first, second).ok()?;
    }
    draft.seal().ok()
}
