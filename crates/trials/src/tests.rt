// Runs of some rules over crank, signal 0, and oil, signal 1.
use crate::check_on_tape;
use checker::refusal::CheckRefusal;
use machine::place::Machine;
use machine::translator::translate;
use recording::tape::Tape;
use sheet::draft::Draft;
use std::test::Fail;

// The machine of the sheet crank, oil and these lines.
fn machine_of(lines: &[(u8, u8, u8)]) -> Result<Machine, Fail> {
    let mut draft = Draft::new();
    draft.write(1, 0, 0)?;
    draft.write(1, 1, 0)?;
    for &(code, a, b) in lines {
        draft.write(code, a, b)?;
    }
    let sealed = draft.seal().map_err(|_| Fail::new("no line"))?;
    let mut machine = Machine::new();
    translate(&sealed, &mut machine);
    Ok(machine)
}

#[test]
fn until_runs(rt: HostRuntime) -> Result<(), Fail> {
    let until = machine_of(&[(6, 0, 1)])?;
    let tape = Tape::new(2, 1, 2, &[1, 2, 0])?;
    assert_eq!(rt; check_on_tape(&until, &tape, &[1, 1, 0], 1), Ok(true));
    assert_eq!(rt; check_on_tape(&until, &tape, &[1, 1, 0, 1, 0], 1), Ok(true));
    assert_eq!(rt; check_on_tape(&until, &tape, &[1, 1, 0, 1, 0], 3), Ok(true));
    assert_eq!(rt; check_on_tape(&until, &tape, &[1, 1, 1], 1), Ok(false));
    assert_eq!(rt; check_on_tape(&until, &tape, &[0, 1, 0], 1), Ok(false));
    assert_eq!(rt;
        check_on_tape(&until, &tape, &[1, 1, 0, 1, 1], 3),
        Ok(false)
    );
    // crank stays and oil never comes: until claims it, and its pair is not met; weak until has none
    let stuck = Tape::new(2, 0, 1, &[1])?;
    assert_eq!(rt; check_on_tape(&until, &stuck, &[1], 0), Ok(false));
    assert_eq!(rt; check_on_tape(&until, &stuck, &[0], 0), Ok(false));
    let weak = machine_of(&[(7, 0, 1)])?;
    assert_eq!(rt; check_on_tape(&weak, &stuck, &[1], 0), Ok(true));
    assert_eq!(rt; check_on_tape(&weak, &stuck, &[0], 0), Ok(false));
    // under a not it is the weak until that has the pair
    let not_weak = machine_of(&[(7, 0, 1), (2, 2, 0)])?;
    assert_eq!(rt; check_on_tape(&not_weak, &stuck, &[0], 0), Ok(false));
    // the only row that meets the pair comes before back
    let early = Tape::new(2, 1, 1, &[3, 1])?;
    assert_eq!(rt; check_on_tape(&until, &early, &[1, 1], 1), Ok(false));
    assert_eq!(rt; check_on_tape(&until, &early, &[1, 0], 1), Ok(true));
    Ok(())
}

#[test]
fn starts(rt: HostRuntime) -> Result<(), Fail> {
    let tape = Tape::new(2, 0, 1, &[1])?;
    let previous = machine_of(&[(8, 0, 0)])?;
    assert_eq!(rt; check_on_tape(&previous, &tape, &[0, 1], 1), Ok(false));
    assert_eq!(rt; check_on_tape(&previous, &tape, &[1, 1], 1), Ok(false));
    let weak_previous = machine_of(&[(9, 0, 0)])?;
    assert_eq!(rt; check_on_tape(&weak_previous, &tape, &[1, 1], 1), Ok(true));
    assert_eq!(rt; check_on_tape(&weak_previous, &tape, &[1, 0], 1), Ok(false));
    // a weak since shows one sample late
    let weak_since = machine_of(&[(11, 0, 1)])?;
    assert_eq!(rt; check_on_tape(&weak_since, &tape, &[1, 1], 1), Ok(true));
    assert_eq!(rt; check_on_tape(&weak_since, &tape, &[0, 1], 1), Ok(false));
    Ok(())
}

#[test]
fn refusals(rt: HostRuntime) -> Result<(), Fail> {
    let until = machine_of(&[(6, 0, 1)])?;
    let tape = Tape::new(2, 1, 2, &[1, 2, 0])?;
    assert_eq!(rt;
        check_on_tape(&until, &tape, &[], 0),
        Err(CheckRefusal::BadShape)
    );
    assert_eq!(rt;
        check_on_tape(&until, &tape, &[1, 1, 0], 3),
        Err(CheckRefusal::BadShape)
    );
    assert_eq!(rt;
        check_on_tape(&until, &tape, &[1, 1, 0], 0),
        Err(CheckRefusal::BadShape)
    );
    assert_eq!(rt;
        check_on_tape(&until, &tape, &[1, 1, 0], 2),
        Err(CheckRefusal::BadShape)
    );
    assert_eq!(rt;
        check_on_tape(&until, &tape, &[1, 1, 2], 1),
        Err(CheckRefusal::StrayBit)
    );
    assert_eq!(rt;
        check_on_tape(&until, &tape, &[1, 1, 2], 2),
        Err(CheckRefusal::BadShape)
    );
    assert_eq!(rt; check_on_tape(&until, &tape, &[0; 4352], 4350), Ok(false));
    assert_eq!(rt;
        check_on_tape(&until, &tape, &[0; 4353], 4351),
        Err(CheckRefusal::BadShape)
    );
    // a gate names signal 1
    let narrow = Tape::new(1, 0, 1, &[1])?;
    assert_eq!(rt;
        check_on_tape(&until, &narrow, &[2], 7),
        Err(CheckRefusal::NoSignal)
    );
    assert_eq!(rt; CheckRefusal::NoSignal.number(), 5);
    assert_eq!(rt; CheckRefusal::BadShape.number(), 8);
    assert_eq!(rt; CheckRefusal::StrayBit.number(), 9);
    Ok(())
}
