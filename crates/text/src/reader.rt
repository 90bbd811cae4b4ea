// The reader of a rule text: a unit or a pair at a place, and the whole rule.
ghost use Rattle.std.specs.Prelude.{◌≡◌, ◌+◌, ◌<◌, ◌≤◌, length};
ghost use Rattle.sheet.specs.Sheets.{lines_of};
ghost use Rattle.lexer.specs.Names.{Good, known, line_of};
ghost use Rattle.text.specs.Reading.{FullAlone, Read, Stands, Unambiguous, Verdict};
ghost use Rattle.text.specs.Steps.{ByteAt, CloseAt, InfixAt, Outcome};

use crate::fault::Fault;
use crate::pending::Pending;
use crate::sign::{Infix, Prefix};
use crate::writing::{put, put_infix, put_prefix};
use lexer::names::Names;
use lexer::token::{Token, next_token};
use sheet::draft::Draft;
use sheet::line::Line;
use sheet::sealed::Sealed;

// The bytes that a rule text may have, and the levels of a rule.
const LONGEST: usize = 4096;

const DEEPEST: u8 = 32;

// A unit that was read: its line, and the place after it.
#[derive(Clone, Copy)]
struct Done {
    line: u8,
    end: usize,
}

// A rule text, and the names that it may use.
#[derive(Clone, Copy)]
struct Source<'a> {
    names: Names<'a>,
    text: &'a [u8],
}

impl Source<'_> {
    // The byte at `at`.
    fn byte_at(&self, at: usize) -> Result<char, Fault>
        requires { at ≤ length self.now.text.now }
        ensures { ByteAt self.now.text.now at result }
    {
        Ok(*self.text.get(at).ok_or(Fault::Early { at })? as char)
    }

    // The sign of a pair at `at`.
    fn infix_at(&self, at: usize) -> Result<Infix, Fault>
        requires { at ≤ length self.now.text.now }
        ensures { InfixAt self.now.text.now at result }
    {
        Infix::from_sign(self.byte_at(at)?).ok_or(Fault::Byte { at })
    }

    // The close bracket at `at`.
    fn close_at(&self, at: usize) -> Result<(), Fault>
        requires { at ≤ length self.now.text.now }
        ensures { CloseAt self.now.text.now at result }
    {
        match self.byte_at(at)? {
            ')' => Ok(()),
            _ => Err(Fault::Byte { at }),
        }
    }

    // Reads the unit at `at`, inside `level` levels.
    #[cycle(pair_unit)]
    fn unit(&self, draft: &mut Draft, at: usize, level: u8) -> Result<Done, Fault>
        requires start { at ≤ length self.now.text.now }
        requires deep { level ≤ 32 }
        ensures { Outcome (known self.now.names) self.now.text.now level (lines_of draft.old) (lines_of draft.new) at result }
    {
        let Some((token, after)) = next_token(self.text, at) else {
            let _ = self.byte_at(at)?;
            return Err(Fault::Byte { at });
        };
        match token {
            Token::Name { bytes, at: place } => {
                let number = self.names.find(bytes).ok_or(Fault::Unknown { at: place })?;
                let line = put(draft, place, Line::Signal(number))?;
                Ok(Done { line, end: after })
            }
            Token::Digit(value) => {
                let line = put(draft, at, Line::Const(value))?;
                Ok(Done { line, end: after })
            }
            Token::Sign('(') => self.pair(draft, at, level),
            Token::Sign(sign) => {
                let prefix = Prefix::from_sign(sign).ok_or(Fault::Byte { at })?;
                if level >= DEEPEST {
                    return Err(Fault::Deep { at });
                }
                let inner = self.unit(draft, after, level + 1)?;
                let line = put_prefix(draft, at, prefix, inner.line)?;
                Ok(Done {
                    line,
                    end: inner.end,
                })
            }
        }
    }

    // Reads the pair whose open bracket is at `at`, inside `level` levels.
    #[cycle(pair_unit)]
    fn pair(&self, draft: &mut Draft, at: usize, level: u8) -> Result<Done, Fault>
        requires start { Stands self.now.text.now at 40 }
        requires deep { level ≤ 32 }
        ensures { Outcome (known self.now.names) self.now.text.now level (lines_of draft.old) (lines_of draft.new) at result }
    {
        if level >= DEEPEST {
            return Err(Fault::Deep { at });
        }
        let left = self.unit(draft, at + 1, level + 1)?;
        let operator = self.infix_at(left.end)?;
        let right = self.unit(draft, left.end + 1, level + 1)?;
        self.close_at(right.end)?;
        let line = put_infix(draft, left.end, operator, left.line, right.line)?;
        Ok(Done {
            line,
            end: right.end + 1,
        })
    }
}

/// Reads the rule of the text into the draft, and answers the number of its line. At a fault the draft keeps the lines
/// that it had.
pub fn read_rule(draft: &mut Draft, names: &Names, text: &[u8]) -> Result<u8, Fault>
    ensures verdict { Verdict (known names.now) text.now (lines_of draft.old) (lines_of draft.new) result }
    ensures only { Good (line_of names.now) → Unambiguous (known names.now) text.now (lines_of draft.old) }
    ensures full { FullAlone result }
{
    if text.len() > LONGEST {
        return Err(Fault::Long);
    }
    let mut pending = Pending::new(draft);
    let source = Source {
        names: *names,
        text,
    };
    let rule = source.unit(pending.draft, 0, 0)?;
    if rule.end < text.len() {
        return Err(Fault::After { at: rule.end });
    }
    pending.accept();
    Ok(rule.line)
}

/// Reads the rule of the text onto a sheet of its own, and seals it.
pub fn read_sheet(names: &Names, text: &[u8]) -> Result<Sealed, Fault>
    ensures { Read (known names.now) text.now result }
{
    let mut draft = Draft::new();
    let _ = read_rule(&mut draft, names, text)?;
    let Ok(sheet) = draft.seal() else {
        unreachable()
    };
    Ok(sheet)
}
