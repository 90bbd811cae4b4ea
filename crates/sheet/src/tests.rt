// Every refusal at its edges.
use crate::draft::Draft;
use crate::line::Line;
use crate::refusal::Refusal;
use std::test::Fail;

#[test]
fn table(rt: HostRuntime) {
    let mut draft = Draft::new();
    assert_eq!(rt; draft.write(12, 0, 0), Err(Refusal::Code));
    assert_eq!(rt; draft.write(255, 99, 99), Err(Refusal::Code));
    assert_eq!(rt; draft.write(11, 0, 0), Err(Refusal::Operand));
    assert_eq!(rt; draft.write(0, 2, 0), Err(Refusal::Operand));
    assert_eq!(rt; draft.write(0, 1, 1), Err(Refusal::Operand));
    assert_eq!(rt; draft.write(0, 1, 0), Ok(0));
    assert_eq!(rt; draft.write(1, 32, 0), Err(Refusal::Operand));
    assert_eq!(rt; draft.write(1, 31, 1), Err(Refusal::Operand));
    assert_eq!(rt; draft.write(1, 31, 0), Ok(1));
    assert_eq!(rt; draft.write(2, 2, 0), Err(Refusal::Operand));
    assert_eq!(rt; draft.write(5, 1, 1), Err(Refusal::Operand));
    assert_eq!(rt; draft.write(6, 1, 2), Err(Refusal::Operand));
    assert_eq!(rt; draft.write(6, 2, 1), Err(Refusal::Operand));
    assert_eq!(rt; draft.write(6, 1, 0), Ok(2));
    assert_eq!(rt; draft.write(9, 2, 0), Ok(3));
    assert_eq!(rt; draft.write(11, 3, 3), Ok(4));
    let lines = draft.lines();
    assert!(rt; lines.len() == 5);
    assert_eq!(rt; lines[0], Line::Const(true));
    assert_eq!(rt; lines[1], Line::Signal(31));
    assert_eq!(rt; lines[2], Line::Until(1, 0));
    assert_eq!(rt; lines[3], Line::WeakPrevious(2));
    assert_eq!(rt; lines[4], Line::WeakSince(3, 3));
}

#[test]
fn room(rt: HostRuntime) {
    let mut draft = Draft::new();
    assert_eq!(rt; draft.strike(), Err(Refusal::Empty));
    assert_eq!(rt; draft.write(0, 0, 0), Ok(0));
    for n in 1..64u8 {
        assert_eq!(rt; draft.write(2, n - 1, 0), Ok(n));
    }
    assert_eq!(rt; draft.write(12, 0, 0), Err(Refusal::Code));
    assert_eq!(rt; draft.write(1, 32, 0), Err(Refusal::Operand));
    assert_eq!(rt; draft.write(1, 31, 0), Err(Refusal::Full));
    assert_eq!(rt; draft.strike(), Ok(()));
    assert_eq!(rt; draft.write(1, 31, 0), Ok(63));
    draft.truncate(64);
    assert_eq!(rt; draft.len(), 64);
    draft.truncate(2);
    assert_eq!(rt; draft.len(), 2);
    assert!(rt; !draft.is_empty());
}

#[test]
fn forms(rt: HostRuntime) -> Result<(), Fail> {
    let mut draft = match Draft::new().seal() {
        Ok(sealed) => sealed.reopen(),
        Err(back) => {
            assert_eq!(rt; back.refusal, Refusal::Empty);
            back.draft
        }
    };
    assert!(rt; draft.is_empty());
    assert_eq!(rt; draft.write(1, 7, 0), Ok(0));
    match draft.seal() {
        Ok(sealed) => {
            assert_eq!(rt; sealed.lines().len(), 1);
            let again = sealed.reopen();
            assert_eq!(rt; again.len(), 1);
            Ok(())
        }
        Err(_) => Err(Fail::new("a draft with a line is sealed")),
    }
}

#[test]
fn numbers(rt: HostRuntime) {
    assert_eq!(rt; Refusal::Code.number(), 1);
    assert_eq!(rt; Refusal::Operand.number(), 2);
    assert_eq!(rt; Refusal::Full.number(), 3);
    assert_eq!(rt; Refusal::Empty.number(), 4);
}
