// Which bytes are a bench file, what it says, and where another is refused.
use crate::file::read_file;
use crate::outcome::{Report, ReportRefusal};
use crate::report::{CELLS, report};
use recording::truth::Ternary;
use std::process::Abort;
use std::test::Fail;

fn refused(rt: &impl Abort, bytes: &[u8], number: u8, place: Option<usize>) -> Result<(), Fail> {
    match read_file(bytes) {
        Ok(_) => Err(Fail::new("taken")),
        Err(refusal) => {
            assert_eq!(rt; refusal.number(), number);
            assert_eq!(rt; refusal.place(), place);
            Ok(())
        }
    }
}

// Sample t of the file has these masks.
fn sample(rt: &impl Abort, bytes: &[u8], t: usize, mask: u32, lost: u32) -> Result<(), Fail> {
    let file = read_file(bytes)?;
    assert!(rt; t < 1998);
    let (has, lacks) = (file.masks[t], file.lost[t]);
    assert_eq!(rt; has, mask);
    assert_eq!(rt; lacks, lost);
    Ok(())
}

// The file says so.
fn header(
    rt: &impl Abort,
    bytes: &[u8],
    stem: usize,
    cycle: usize,
    rule: &[u8],
    names: u8,
) -> Result<(), Fail> {
    let file = read_file(bytes)?;
    assert_eq!(rt; file.stem, stem);
    assert_eq!(rt; file.cycle, cycle);
    assert!(rt; file.rule == rule);
    assert_eq!(rt; file.names.count(), names);
    Ok(())
}

fn put(bytes: &mut [u8], at: usize, part: &[u8]) {
    for (i, byte) in part.iter().enumerate() {
        if at < bytes.len() && i < bytes.len() - at {
            bytes[at + i] = *byte;
        }
    }
}

// Ends a line after each byte from line 3 on, where 28 bytes stand before it.
fn end_lines(bytes: &mut [u8]) {
    for i in 28..bytes.len() {
        if i % 2 == 1 {
            bytes[i] = 10;
        }
    }
}

#[test]
fn refusals(rt: HostRuntime) -> Result<(), Fail> {
    let cases: [(&[u8], u8, Option<usize>); 38] = [
        (b"", 19, Some(0)),
        (b"stem cycle rule", 19, Some(0)),
        (b"stem cycle rul\n", 19, Some(0)),
        (b"Stem cycle rule\n", 19, Some(0)),
        (b" stem cycle rule\n", 19, Some(0)),
        (b"\nstem cycle rule\n", 19, Some(0)),
        (b"stem cycle rule\n", 19, Some(1)),
        (b"stem cycle rule\n1 2\n", 19, Some(1)),
        (b"stem cycle rule\n1 2 ", 19, Some(1)),
        (b"stem cycle rule\n1 2 a", 19, Some(1)),
        (b"stem cycle rule\n 1 2 a\n", 19, Some(1)),
        (b"stem cycle rule\n1234 1 a\n", 19, Some(1)),
        (b"stem cycle rule\n1 1234 a\n", 19, Some(1)),
        (b"stem cycle rule\nx 1 a\n", 19, Some(1)),
        (b"stem cycle rule\n1  a\n", 19, Some(1)),
        (b"stem cycle rule\n1\t2 a\n", 19, Some(1)),
        (b"stem cycle rule\n-1 1 a\n", 19, Some(1)),
        (b"stem cycle rule\n0 1 a\n", 19, Some(2)),
        (b"stem cycle rule\n0 1 a\na", 19, Some(2)),
        (b"stem cycle rule\n0 1 a\nA", 19, Some(2)),
        (b"stem cycle rule\n0 1 a\nA\n", 18, None),
        (b"stem cycle rule\n0 1 a\n\n0\n", 18, None),
        (b"stem cycle rule\n0 1 a\na a\n2\n", 18, None),
        (b"stem cycle rule\n0 1 a\na\n", 19, Some(3)),
        (b"stem cycle rule\n0 1 a\na\n0", 19, Some(3)),
        (b"stem cycle rule\n0 1 a\na\n2\n", 19, Some(3)),
        (b"stem cycle rule\n0 1 a\na\n\n", 19, Some(3)),
        (b"stem cycle rule\n0 1 a\na\n0 1\n", 19, Some(3)),
        (b"stem cycle rule\n0 1 a\na b\n0\n", 19, Some(3)),
        (b"stem cycle rule\n0 1 a\na b\n0  1\n", 19, Some(3)),
        (b"stem cycle rule\n0 1 a\na b\n0 1 \n", 19, Some(3)),
        (b"stem cycle rule\n0 1 a\na b\n01\n", 19, Some(3)),
        (b"stem cycle rule\n0 2 a\na\n0\n", 19, Some(4)),
        (b"stem cycle rule\n1 2 a\na\n0\nx\n1\n", 19, Some(4)),
        (b"stem cycle rule\n0 1 a\na\n0\n1\n", 19, Some(4)),
        (b"stem cycle rule\n0 1 a\na\n0\n\n", 19, Some(4)),
        (b"stem cycle rule\n0 1 a\na\n0\n1", 19, Some(4)),
        (b"stem cycle rule\n0 0 a\na\n0\n", 19, Some(3)),
    ];
    for (bytes, number, place) in cases.iter() {
        refused(&rt, *bytes, *number, *place)?;
    }
    Ok(())
}

#[test]
fn bench_files(rt: HostRuntime) -> Result<(), Fail> {
    let bench = b"stem cycle rule\n1 2 (crankUoil)\ncrank oil\n1 0\n0 1\n0 0\n";
    header(&rt, bench, 1, 2, b"(crankUoil)", 2)?;
    sample(&rt, bench, 0, 1, 0)?;
    sample(&rt, bench, 1, 2, 0)?;
    sample(&rt, bench, 2, 0, 0)?;
    let gapped = b"stem cycle rule\n00 001  a b \na b c\n1 ? 1\n";
    header(&rt, gapped, 0, 1, b" a b ", 3)?;
    sample(&rt, gapped, 0, 5, 2)?;
    header(&rt, b"stem cycle rule\n0 1 \na\n?\n", 0, 1, b"", 1)?;
    header(&rt, b"stem cycle rule\n0 0 a\na\n", 0, 0, b"a", 1)?;
    let wide =
        b"stem cycle rule\n2 1 a\na b c d e f g h i j k l m n o p q r s t u v w x y z za zb zc zd ze zf\n1 1 1 1 1 1 1 1 1 1 1 1 1 1 1 1 1 1 1 1 1 1 1 1 1 1 1 1 1 1 1 1\n0 0 0 0 0 0 0 0 0 0 0 0 0 0 0 0 0 0 0 0 0 0 0 0 0 0 0 0 0 0 0 1\n? ? ? ? ? ? ? ? ? ? ? ? ? ? ? ? ? ? ? ? ? ? ? ? ? ? ? ? ? ? ? ?\n";
    sample(&rt, wide, 0, 4294967295, 0)?;
    sample(&rt, wide, 1, 2147483648, 0)?;
    sample(&rt, wide, 2, 0, 4294967295)
}

#[test]
fn long_files(rt: HostRuntime) -> Result<(), Fail> {
    let mut most = [b'0'; 4024];
    put(&mut most, 0, b"stem cycle rule\n999 999 a\na\n");
    end_lines(&mut most);
    header(&rt, &most, 999, 999, b"a", 1)?;
    let mut longest = [b'x'; 16384];
    put(&mut longest, 0, b"stem cycle rule\n0 1 ");
    put(&mut longest, 16379, b"\na\n0\n");
    sample(&rt, &longest, 0, 0, 0)?;
    let mut over = [b'x'; 16385];
    put(&mut over, 0, b"stem cycle rule\n0 1 ");
    put(&mut over, 16380, b"\na\n0\n");
    refused(&rt, &over, 19, Some(0))
}

fn reported(bytes: &[u8]) -> Result<Report, ReportRefusal> {
    let mut cells = [Ternary::No; CELLS];
    report(bytes, &mut cells)
}

#[test]
fn verdicts(rt: HostRuntime) -> Result<(), Fail> {
    let cases: [(&[u8], Ternary); 4] = [
        (
            b"stem cycle rule\n1 2 (crankUoil)\ncrank oil\n1 0\n0 1\n0 0\n",
            Ternary::Yes,
        ),
        (
            b"stem cycle rule\n0 1 (crankUoil)\ncrank oil\n1 0\n",
            Ternary::No,
        ),
        (
            b"stem cycle rule\n0 1 (crankUoil)\ncrank oil\n? 1\n",
            Ternary::Yes,
        ),
        (
            b"stem cycle rule\n0 1 (crank|!crank)\ncrank\n?\n",
            Ternary::Lost,
        ),
    ];
    for (bytes, verdict) in cases {
        match reported(bytes) {
            Ok(told) => assert_eq!(rt; told.verdict, verdict),
            Err(_) => return Err(Fail::new("refused")),
        }
    }
    Ok(())
}

#[test]
fn refused_reports(rt: HostRuntime) -> Result<(), Fail> {
    let cases: [(&[u8], u8, Option<usize>); 7] = [
        (b"stem cycle rule\n0 1 a\na a\n0 0\n", 18, None),
        (b"stem cycle rule\n0 0 a\na\n", 10, None),
        (b"stem cycle rule\n1 0 a\na\n1\n", 10, None),
        (b"stem cycle rule\n0 1 \na\n1\n", 13, Some(0)),
        (b"stem cycle rule\n0 1 a&b\na b\n1 0\n", 16, Some(1)),
        (b"stem cycle rule\n0 1 (a&c)\na b\n1 0\n", 14, Some(3)),
        (
            b"stem cycle rule\n0 64 (YYYYYYYYYYYYYYYYYYYYYYYYYYYYYYa&YYYYYYYYYYYYYYYYYYYYYYYYYYYYYYa)\na\n1\n1\n1\n1\n1\n1\n1\n1\n1\n1\n1\n1\n1\n1\n1\n1\n1\n1\n1\n1\n1\n1\n1\n1\n1\n1\n1\n1\n1\n1\n1\n1\n1\n1\n1\n1\n1\n1\n1\n1\n1\n1\n1\n1\n1\n1\n1\n1\n1\n1\n1\n1\n1\n1\n1\n1\n1\n1\n1\n1\n1\n1\n1\n1\n",
            6,
            None,
        ),
    ];
    for (bytes, number, place) in cases {
        match reported(bytes) {
            Ok(_) => return Err(Fail::new("taken")),
            Err(refusal) => {
                assert_eq!(rt; refusal.number(), number);
                assert_eq!(rt; refusal.place(), place);
            }
        }
    }
    Ok(())
}
