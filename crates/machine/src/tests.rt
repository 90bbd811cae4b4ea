// The machines of some rules over crank, signal 0, and oil, signal 1.
use crate::gate::{Gate, Pair, Variable};
use crate::place::Machine;
use crate::translator::translate;
use sheet::draft::Draft;
use sheet::sealed::Sealed;
use std::test::Fail;

// crank, oil, and these lines.
fn sheet_of(lines: &[(u8, u8, u8)]) -> Result<Sealed, Fail> {
    let mut draft = Draft::new();
    let _ = draft.write(1, 0, 0);
    let _ = draft.write(1, 1, 0);
    for &(code, left, right) in lines {
        let _ = draft.write(code, left, right);
    }
    draft.seal().map_err(|_| Fail::new("no line"))
}

#[test]
fn new_machine(rt: HostRuntime) {
    let machine = Machine::new();
    assert!(rt; machine.gates().len() == 1);
    assert_eq!(rt; machine.gates()[0], Gate::Const(false));
    assert_eq!(rt; machine.variables().len(), 0);
    assert_eq!(rt; machine.pairs().len(), 0);
    assert_eq!(rt; machine.root(), 0);
}

#[test]
fn weak_until_under_not(rt: HostRuntime) -> Result<(), Fail> {
    let mut machine = Machine::new();
    translate(&sheet_of(&[(7, 0, 1), (2, 2, 0)])?, &mut machine);
    assert!(rt; machine.gates().len() == 4);
    assert_eq!(rt; machine.gates()[2], Gate::Var(0));
    assert_eq!(rt; machine.gates()[3], Gate::Not(2));
    assert!(rt; machine.variables().len() == 1);
    assert_eq!(rt; machine.variables()[0], Variable::Until(0, 1));
    assert!(rt; machine.pairs().len() == 1);
    assert_eq!(rt; machine.pairs()[0], Pair { from: 0, to: 2 });
    assert_eq!(rt; machine.root(), 3);
    // an until in its place has no pair
    translate(&sheet_of(&[(6, 0, 1), (2, 2, 0)])?, &mut machine);
    assert_eq!(rt; machine.pairs().len(), 0);
    Ok(())
}

#[test]
fn next_of_weak_until(rt: HostRuntime) -> Result<(), Fail> {
    let mut machine = Machine::new();
    translate(&sheet_of(&[(7, 0, 1), (5, 2, 0)])?, &mut machine);
    assert!(rt; machine.variables().len() == 2);
    assert_eq!(rt; machine.variables()[0], Variable::Until(0, 1));
    assert_eq!(rt; machine.variables()[1], Variable::Next(2));
    assert_eq!(rt; machine.root(), 3);
    assert_eq!(rt; machine.pairs().len(), 0);
    Ok(())
}

#[test]
fn both_signs(rt: HostRuntime) -> Result<(), Fail> {
    let mut machine = Machine::new();
    translate(&sheet_of(&[(6, 0, 1), (2, 2, 0), (3, 2, 3)])?, &mut machine);
    assert_eq!(rt; machine.variables().len(), 1);
    assert!(rt; machine.pairs().len() == 1);
    assert_eq!(rt; machine.pairs()[0], Pair { from: 2, to: 1 });
    assert_eq!(rt; machine.root(), 4);
    Ok(())
}
