// The calls on a draft: push, write, strike, and what its readers and the rule reader need.
ghost use Rattle.std.specs.Prelude.{◌≡◌, List, [], length, take, ◌==◌};
ghost use Rattle.sheet.specs.Ledger.{fed, pushed, Write, Strike};
ghost use Rattle.sheet.specs.Sheets.{lines_of, drafted, written, done};

use crate::draft::Draft;
use crate::draft::lines::Lines;
use crate::line::Line;
use crate::refusal::Refusal;

impl Draft {
    /// The empty draft.
    pub fn new() -> Draft
        ensures { lines_of result ≡ [] }
    {
        Draft {
            lines: Lines::new(),
        }
    }

    /// How many lines there are.
    pub fn len(&self) -> usize
        ensures { result ≡ length (lines_of self.now) }
    {
        self.lines.len()
    }

    /// Whether there is no line.
    pub fn is_empty(&self) -> bool
        ensures { result ≡ (length (lines_of self.now) == 0) }
    {
        self.len() == 0
    }

    /// The lines, in order.
    pub fn lines(&self) -> &[Line]
        ensures { result.now ≡ lines_of self.now }
    {
        self.lines.as_slice()
    }

    /// Adds a line, and answers its number.
    pub fn push(&mut self, line: Line) -> Result<u8, Refusal>
        ensures { (written result, drafted self.new) ≡ pushed (drafted self.old) line }
    {
        let number = self.len();
        if !line.fits(number) {
            return Err(Refusal::Operand);
        }
        if number == 64 {
            return Err(Refusal::Full);
        }
        self.lines.push(line);
        Ok(number as u8)
    }

    /// Adds the line of this code and these operands, and answers its number.
    pub fn write(&mut self, code: u8, left: u8, right: u8) -> Result<u8, Refusal>
        ensures { (written result, drafted self.new) ≡ fed (drafted self.old) (Write code left right) }
    {
        let line = Line::named(code, left, right).ok_or(Refusal::Code)?;
        if line.operands() != (left, right) {
            return Err(Refusal::Operand);
        }
        self.push(line)
    }

    /// Takes the last line off.
    pub fn strike(&mut self) -> Result<(), Refusal>
        ensures { (done result, drafted self.new) ≡ fed (drafted self.old) Strike }
    {
        if self.is_empty() {
            return Err(Refusal::Empty);
        }
        self.truncate(self.len() - 1);
        Ok(())
    }

    /// Keeps the first `kept` lines, where there are more, and takes the others off.
    pub fn truncate(&mut self, kept: usize)
        ensures { lines_of self.new ≡ take kept (lines_of self.old) }
    {
        self.lines.truncate(kept);
    }
}
