ghost use Rattle.std.specs.Prelude.{◌≡◌, ◌<◌, [], ◌∷◌, ◌++◌, length, take};

use crate::line::Line;
use std::marker::Model;

// At most 64 lines, in order. What stands in the array past the count has no meaning.
#[derive(Drop)]
pub(crate) struct Lines {
    rows: [Line; 64],
    count: usize,
}

impl Model for Lines {
    ghost use Rattle.std.specs.Prelude.{List, take, ◌≤◌};
    ghost use Rattle.sheet.specs.declared.line.Line.{Line};

    ghost Value = { List Line };

    ghost view = { λ l. take l.count l.rows };

    ghost invariant = { λ l. l.count ≤ 64 };
}

impl Lines {
    pub(crate) fn new() -> Lines
        ensures { result ≡ [] }
    {
        Lines {
            rows: [Line::default(); 64],
            count: 0,
        }
    }

    pub(crate) fn len(&self) -> usize
        ensures { result ≡ length self.now }
    {
        self.as_slice().len()
    }

    pub(crate) fn as_slice(&self) -> &[Line]
        ensures { result.now ≡ self.now }
    {
        &self.rows[0..self.count]
    }

    // Puts a line last.
    pub(crate) fn push(&mut self, line: Line)
        requires { length self.old < 64 }
        ensures { self.new ≡ self.old ++ line ∷ [] }
    {
        self.rows[self.count] = line;
        self.count += 1;
    }

    // Keeps the first `kept` lines, where there are more. The others stay in the array, past the count.
    pub(crate) fn truncate(&mut self, kept: usize)
        ensures { self.new ≡ take kept self.old }
    {
        if kept < self.count {
            self.count = kept;
        }
    }
}
