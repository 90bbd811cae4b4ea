// Fills the machine place anew from a sealed sheet.
ghost use Rattle.std.specs.Prelude.{◌≡◌, length};
ghost use Rattle.sheet.specs.Sheets.{sealed_lines};
ghost use Rattle.machine.specs.Building.{Built};
ghost use Rattle.machine.specs.Machines.{tables};
ghost use Rattle.machine.specs.Translation.{translate as translation_of, Sound};

use crate::place::Machine;
use crate::signs::pass::signs_in;
use crate::work::Work;
use sheet::sealed::Sealed;

// The lines translated upward.
fn filled(sheet: &Sealed) -> Work
    ensures { Built (sealed_lines sheet.now) (length (sealed_lines sheet.now)) result }
{
    let signs = signs_in(sheet);
    let mut work = Work::new();
    for (k, &line) in sheet.lines().iter().enumerate() {
        work.put_line(k, line, signs[k]);
    }
    work
}

/// Fills the machine place anew with the signed translation of the sheet, whatever it held.
pub fn translate(sheet: &Sealed, machine: &mut Machine)
    ensures filled { tables machine.new ≡ translation_of (sealed_lines sheet.now) }
    ensures sound { Sound (sealed_lines sheet.now) }
{
    let work = filled(sheet);
    let root = work.places[sheet.lines().len() - 1];
    let (gates, gate_count) = work.gates.into_parts();
    let (variables, variable_count) = work.variables.into_parts();
    let (pairs, pair_count) = work.pairs.into_parts();
    *machine = Machine {
        gates,
        gate_count,
        variables,
        variable_count,
        pairs,
        pair_count,
        root,
    };
}
