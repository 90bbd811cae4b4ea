// What the reader does on examples: faults with their places, and the lines of each form in order.
use crate::reader::read_rule;
use lexer::names::Names;
use sheet::draft::Draft;
use sheet::line::Line;
use std::process::Abort;
use std::test::Fail;

// The text is refused so, and the draft of `full` lines stays as it was.
fn refused(
    rt: &impl Abort,
    full: usize,
    text: &[u8],
    number: u8,
    place: usize,
) -> Result<(), Fail> {
    let names = Names::new(b"crank oil a eightlet")?;
    let mut draft = Draft::new();
    for _ in 0..full {
        let _line = draft.write(0, 1, 0)?;
    }
    match read_rule(&mut draft, &names, text) {
        Ok(_) => Err(Fail::new("accepted")),
        Err(fault) => {
            assert_eq!(rt; fault.number(), number);
            assert_eq!(rt; fault.place(), place);
            assert_eq!(rt; draft.len(), full);
            Ok(())
        }
    }
}

// The text is accepted, and writes these lines after `full` others.
fn written(rt: &impl Abort, full: usize, text: &[u8], lines: &[Line]) -> Result<(), Fail> {
    let names = Names::new(b"crank oil a eightlet")?;
    let mut draft = Draft::new();
    for _ in 0..full {
        let _line = draft.write(0, 1, 0)?;
    }
    let line = read_rule(&mut draft, &names, text)?;
    assert_eq!(rt; line as usize, draft.len().wrapping_sub(1));
    assert!(rt; full <= draft.len());
    assert!(rt; &draft.lines()[full..] == lines);
    Ok(())
}

// The text is accepted, and the draft has so many lines then.
fn taken(rt: &impl Abort, full: usize, text: &[u8], lines: usize) -> Result<(), Fail> {
    let names = Names::new(b"crank oil a eightlet")?;
    let mut draft = Draft::new();
    for _ in 0..full {
        let _line = draft.write(0, 1, 0)?;
    }
    let _line = read_rule(&mut draft, &names, text)?;
    assert_eq!(rt; draft.len(), lines);
    Ok(())
}

#[test]
fn faults(rt: HostRuntime) -> Result<(), Fail> {
    let cases: [(&[u8], u8, usize); 46] = [
        (b"", 13, 0),
        (b"crank&oil", 16, 5),
        (b"2", 12, 0),
        (b"3", 12, 0),
        (b"4", 12, 0),
        (b"5", 12, 0),
        (b"6", 12, 0),
        (b"7", 12, 0),
        (b"8", 12, 0),
        (b"9", 12, 0),
        (b" crank", 12, 0),
        (b"crank ", 16, 5),
        (b"( crank&oil)", 12, 1),
        (b"(crank &oil)", 12, 6),
        (b"(crank& oil)", 12, 7),
        (b"(crank&oil )", 12, 10),
        (b"!", 13, 1),
        (b"!!", 13, 2),
        (b"(", 13, 1),
        (b"(crank", 13, 6),
        (b"(crank&", 13, 7),
        (b"(crank&oil", 13, 10),
        (b"(crank&oil))", 16, 11),
        (b")", 12, 0),
        (b"()", 12, 1),
        (b"&", 12, 0),
        (b"U", 12, 0),
        (b"A", 12, 0),
        (b"Crank", 12, 0),
        (b"CRANK", 12, 0),
        (b"(crankXoil)", 12, 6),
        (b"(crankuoil)", 14, 1),
        (b"(crank!oil)", 12, 6),
        (b"(crank0oil)", 12, 6),
        (b"ninelette", 14, 0),
        (b"eightlett", 14, 0),
        (b"cran", 14, 0),
        (b"cranks", 14, 0),
        (b"!oi", 14, 1),
        (b"(crank&oils)", 14, 7),
        (b"X1crank", 16, 2),
        (b"01", 16, 1),
        (b"!!!!!!!!!!!!!!!!!!!!!!!!!!!!!!!!!crank", 15, 32),
        (b"(((((((((((((((((((((((((((((((((crank", 15, 32),
        (b"((((((((((((((((!!!!!!!!!!!!!!!!(crank", 15, 32),
        (b"((((((((((((((((((((((((((((((((crank", 13, 37),
    ];
    for (text, number, place) in cases.iter() {
        refused(&rt, 0, *text, *number, *place)?;
        refused(&rt, 1, *text, *number, *place)?;
    }
    refused(&rt, 0, &[b'a'; 4096], 14, 0)?;
    refused(&rt, 0, &[b'!'; 4096], 15, 32)?;
    refused(&rt, 0, &[b'a'; 4097], 17, 4096)?;
    refused(&rt, 64, &[b' '; 4097], 17, 4096)
}

// The 32 levels that a rule may have.
#[test]
fn levels(rt: HostRuntime) -> Result<(), Fail> {
    taken(&rt, 0, b"!!!!!!!!!!!!!!!!!!!!!!!!!!!!!!!!crank", 33)?;
    taken(
        &rt,
        0,
        b"((((((((((((((((!!!!!!!!!!!!!!!!a&a)&a)&a)&a)&a)&a)&a)&a)&a)&a)&a)&a)&a)&a)&a)&a)",
        49,
    )
}

#[test]
fn room(rt: HostRuntime) -> Result<(), Fail> {
    taken(
        &rt,
        0,
        b"!(((((((((((((((((((((((((((((((a&a)&a)&a)&a)&a)&a)&a)&a)&a)&a)&a)&a)&a)&a)&a)&a)&a)&a)&a)&a)&a)&a)&a)&a)&a)&a)&a)&a)&a)&a)&a)",
        64,
    )?;
    taken(&rt, 63, b"crank", 64)?;
    taken(&rt, 61, b"Fcrank", 64)?;
    taken(&rt, 61, b"(0&1)", 64)?;
    taken(&rt, 60, b"(a>a)", 64)?;
    refused(
        &rt,
        0,
        b"((((((((((((((((((((((((((((((((a&a)&a)&a)&a)&a)&a)&a)&a)&a)&a)&a)&a)&a)&a)&a)&a)&a)&a)&a)&a)&a)&a)&a)&a)&a)&a)&a)&a)&a)&a)&a)&a)",
        3,
        126,
    )?;
    refused(
        &rt,
        1,
        b"!(((((((((((((((((((((((((((((((a&a)&a)&a)&a)&a)&a)&a)&a)&a)&a)&a)&a)&a)&a)&a)&a)&a)&a)&a)&a)&a)&a)&a)&a)&a)&a)&a)&a)&a)&a)&a)",
        3,
        0,
    )?;
    let cases: [(usize, &[u8], u8, usize); 15] = [
        (64, b"1", 3, 0),
        (64, b"crank", 3, 0),
        (64, b"!!crank", 3, 2),
        (64, b"nope", 14, 0),
        (64, b"", 13, 0),
        (63, b"!crank", 3, 0),
        (63, b"(crank&oil)", 3, 7),
        (63, b"(crank&?", 12, 7),
        (62, b"(crank&oil)", 3, 6),
        (62, b"(crank&oil", 13, 10),
        (62, b"(crank&oil]", 12, 10),
        (62, b"XFcrank", 3, 1),
        (62, b"Gcrank", 3, 0),
        (61, b"(a>a)", 3, 2),
        (63, b"a!", 16, 1),
    ];
    for (full, text, number, place) in cases.iter() {
        refused(&rt, *full, *text, *number, *place)?;
    }
    Ok(())
}

#[test]
fn lines_in_order(rt: HostRuntime) -> Result<(), Fail> {
    written(&rt, 0, b"0", &[Line::Const(false)])?;
    written(&rt, 2, b"1", &[Line::Const(true)])?;
    written(&rt, 0, b"eightlet", &[Line::Signal(3)])?;
    written(&rt, 0, b"!a", &[Line::Signal(2), Line::Not(0)])?;
    written(&rt, 3, b"Xa", &[Line::Signal(2), Line::Next(3)])?;
    written(&rt, 0, b"Ya", &[Line::Signal(2), Line::Previous(0)])?;
    written(&rt, 0, b"Za", &[Line::Signal(2), Line::WeakPrevious(0)])?;
    written(
        &rt,
        0,
        b"Fa",
        &[Line::Signal(2), Line::Const(true), Line::Until(1, 0)],
    )?;
    written(
        &rt,
        5,
        b"Ga",
        &[Line::Signal(2), Line::Const(false), Line::WeakUntil(5, 6)],
    )?;
    written(
        &rt,
        0,
        b"Oa",
        &[Line::Signal(2), Line::Const(true), Line::Since(1, 0)],
    )?;
    written(
        &rt,
        0,
        b"Ha",
        &[Line::Signal(2), Line::Const(false), Line::WeakSince(0, 1)],
    )
}

#[test]
fn pairs_in_order(rt: HostRuntime) -> Result<(), Fail> {
    let units = [Line::Signal(0), Line::Signal(1)];
    written(
        &rt,
        0,
        b"(crank&oil)",
        &[units[0], units[1], Line::And(0, 1)],
    )?;
    written(
        &rt,
        0,
        b"(crank|oil)",
        &[units[0], units[1], Line::Or(0, 1)],
    )?;
    written(
        &rt,
        4,
        b"(crank>oil)",
        &[units[0], units[1], Line::Not(4), Line::Or(6, 5)],
    )?;
    written(
        &rt,
        0,
        b"(crankUoil)",
        &[units[0], units[1], Line::Until(0, 1)],
    )?;
    written(
        &rt,
        0,
        b"(crankWoil)",
        &[units[0], units[1], Line::WeakUntil(0, 1)],
    )?;
    written(
        &rt,
        0,
        b"(crankSoil)",
        &[units[0], units[1], Line::Since(0, 1)],
    )?;
    written(
        &rt,
        1,
        b"(crankBoil)",
        &[units[0], units[1], Line::WeakSince(1, 2)],
    )?;
    written(
        &rt,
        0,
        b"(crank&crank)",
        &[units[0], units[0], Line::And(0, 1)],
    )?;
    written(
        &rt,
        1,
        b"(!crank>F(oilS0))",
        &[
            units[0],
            Line::Not(1),
            units[1],
            Line::Const(false),
            Line::Since(3, 4),
            Line::Const(true),
            Line::Until(6, 5),
            Line::Not(2),
            Line::Or(8, 7),
        ],
    )
}
