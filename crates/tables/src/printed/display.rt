ghost use Rattle.std.specs.Prelude.{Some};
ghost use Rattle.tables.specs.Shown.{printed_text};

use crate::printed::Printed;
use crate::row::write_table;
use std::fmt;

impl fmt::Display for Printed<'_> {
    ghost output = { λ p. Some (printed_text p) };

    fn fmt<W: fmt::Write>(&self, f: &mut fmt::Formatter<W>) -> fmt::Result {
        let machine = self.machine;
        write_table("gate kind a b", machine.gates(), f)?;
        write_table("var kind a b start", machine.variables(), f)?;
        write_table("fair from to", machine.pairs(), f)?;
        writeln!(f, "root\n{}", machine.root())
    }
}
