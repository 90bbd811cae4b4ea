// One row of a table, and a table's rows.
ghost use Rattle.std.specs.Prelude.{ℕ, List};
ghost use Rattle.std.specs.Fmt.{WritesOnOk};
ghost use Rattle.tables.specs.Text.{gate_text, variable_text, pair_text, rows_text, table_text};

use machine::gate::{Gate, Pair, Variable};
use std::fmt;

/// What stands in a table, one to a row.
pub trait Row: Copy {
    /// its row as text, under this number
    ghost text: { ℕ → Self → List ℕ };

    fn write_row<W: fmt::Write>(self, number: usize, f: &mut fmt::Formatter<W>) -> fmt::Result
        ensures { WritesOnOk W.Write.write_str_gives f.old result (text number self) f.new };
}

impl Row for Gate {
    ghost text = { gate_text };

    fn write_row<W: fmt::Write>(self, number: usize, f: &mut fmt::Formatter<W>) -> fmt::Result {
        match self {
            Gate::Const(bit) => write!(f, "{number} const {} -", u8::from(bit)),
            Gate::Signal(a) => write!(f, "{number} sig {a} -"),
            Gate::Var(a) => write!(f, "{number} var {a} -"),
            Gate::Not(a) => write!(f, "{number} not {a} -"),
            Gate::And(a, b) => write!(f, "{number} and {a} {b}"),
            Gate::Or(a, b) => write!(f, "{number} or {a} {b}"),
        }
    }
}

impl Row for Variable {
    ghost text = { variable_text };

    fn write_row<W: fmt::Write>(self, number: usize, f: &mut fmt::Formatter<W>) -> fmt::Result {
        match self {
            Variable::Next(a) => write!(f, "{number} next {a} - -"),
            Variable::Until(a, b) => write!(f, "{number} until {a} {b} -"),
            Variable::Back(a, start) => write!(f, "{number} back {a} - {}", u8::from(start)),
        }
    }
}

impl Row for Pair {
    ghost text = { pair_text };

    fn write_row<W: fmt::Write>(self, number: usize, f: &mut fmt::Formatter<W>) -> fmt::Result {
        let Pair { from, to } = self;
        write!(f, "{number} {from} {to}")
    }
}

/// Writes the rows of a table, each with its number and a line end.
pub fn write_rows<T: Row, W: fmt::Write>(rows: &[T], f: &mut fmt::Formatter<W>) -> fmt::Result
    ensures { WritesOnOk W.Write.write_str_gives f.old result (rows_text T.Row.text 0 rows.now) f.new }
{
    for (number, row) in rows.iter().enumerate() {
        row.write_row(number, f)?;
        writeln!(f, "")?;
    }
    Ok(())
}

/// Writes a table: its heading, a line end, its rows.
pub fn write_table<T: Row, W: fmt::Write>(
    heading: &str,
    rows: &[T],
    f: &mut fmt::Formatter<W>,
) -> fmt::Result
    ensures { WritesOnOk W.Write.write_str_gives f.old result (table_text heading.now T.Row.text rows.now) f.new }
{
    writeln!(f, "{heading}")?;
    write_rows(rows, f)
}
