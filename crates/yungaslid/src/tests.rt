// What the calls answer and leave, each refusal once.
use crate::answer::Answer;
use crate::cell::Cell;
use crate::checking::yungaslid_check;
use crate::listing::yungaslid_listing;
use crate::verdict::yungaslid_verdict;
use std::process::Abort;

fn answered(value: u64) -> Answer {
    Answer {
        number: 0,
        place: u64::MAX,
        value,
    }
}

fn refused(number: u32, place: u64) -> Answer {
    Answer {
        number,
        place,
        value: 0,
    }
}

// With the names crank and oil, on so many signals: a stem of one sample, and then a cycle of two.
fn judged(rule: &[u8], signals: u32, masks: &[u32], lost: &[u32], cells: &mut [Cell]) -> Answer {
    yungaslid_verdict(b"crank oil", rule, signals, 1, 2, masks, lost, cells)
}

fn verdict(rule: &[u8], masks: &[u32], lost: &[u32]) -> Answer {
    let mut cells = [Cell { byte: 7 }; 96];
    judged(rule, 2, masks, lost, &mut cells)
}

fn hold(rt: &impl Abort, cells: &[Cell], bytes: &[u8]) {
    for (cell, byte) in cells.iter().zip(bytes) {
        assert_eq!(rt; cell.byte, *byte);
    }
    assert_eq!(rt; cells.len(), bytes.len());
}

fn verdicts(rt: &impl Abort) {
    let cases: [([u32; 3], [u32; 3], u64); 4] = [
        ([1, 2, 0], [0, 0, 0], 2),
        ([1, 0, 0], [0, 0, 0], 0),
        // oil is lost where it would come
        ([1, 0, 0], [0, 2, 0], 1),
        // oil comes at once, and crank is lost
        ([2, 0, 0], [1, 3, 3], 2),
    ];
    for (masks, lost, value) in cases {
        assert_eq!(rt; verdict(b"(crankUoil)", &masks, &lost), answered(value));
    }
}

fn cells(rt: &impl Abort) {
    let mut ten = [Cell { byte: 7 }; 10];
    let all = judged(b"(crankUoil)", 2, &[1, 2, 0], &[0; 3], &mut ten);
    assert_eq!(rt; all, answered(2));
    hold(rt, &ten, &[2, 0, 2, 0, 2, 2, 0, 0, 0, 7]);
    let mut eight = [Cell { byte: 7 }; 8];
    let few = judged(b"(crankUoil)", 2, &[1, 2, 0], &[0; 3], &mut eight);
    assert_eq!(rt; few, refused(6, u64::MAX));
    let oil = judged(b"oil", 1, &[1; 3], &[0; 3], &mut eight);
    assert_eq!(rt; oil, refused(5, u64::MAX));
    hold(rt, &eight, &[7; 8]);
}

fn texts(rt: &impl Abort) {
    let deep = b"!!!!!!!!!!!!!!!!!!!!!!!!!!!!!!!!!oil";
    let wide =
        b"(oil&(oil&(oil&(oil&(oil&(oil&(oil&(oil&(oil&(oil&(oil&(oil&(oil&(oil&(oil&(oil&(oil&(oil&(oil&(oil&(oil&(oil&(oil&(oil&(oil&(oil&(oil&(oil&(oil&(oil&(oil&(oil&oil))))))))))))))))))))))))))))))))";
    let cases: [(&[u8], u32, u64); 7] = [
        (&[b'a'; 4097], 17, 4096),
        (b"(crank oil)", 12, 6),
        (b"(crankU", 13, 7),
        (b"(crankUair)", 14, 7),
        (deep, 15, 32),
        (b"oil)", 16, 3),
        (wide, 3, 4),
    ];
    for (rule, number, place) in cases {
        assert_eq!(rt; verdict(rule, &[0; 3], &[0; 3]), refused(number, place));
        // a tape is looked at before the rule, and the names before the tape
        assert_eq!(rt; verdict(rule, &[0; 3], &[4; 3]), refused(10, u64::MAX));
        let unnamed = yungaslid_check(b"Oil", rule, 2, 1, 2, &[4; 3], &[0], 0);
        assert_eq!(rt; unnamed, refused(18, u64::MAX));
    }
}

// With the name a, on a cycle of one sample at which it is yes.
fn run(rule: &[u8], rows: &[u64], back: usize) -> Answer {
    yungaslid_check(b"a", rule, 1, 0, 1, &[1], rows, back)
}

fn runs(rt: &impl Abort) {
    assert_eq!(rt; run(b"Ya", &[0, 1], 1), answered(0));
    assert_eq!(rt; run(b"(Ya|a)", &[0, 1], 1), answered(1));
    assert_eq!(rt; run(b"(Ya|a)", &[0, 1], 0), answered(0));
    assert_eq!(rt; run(b"(Ya|a)", &[0, 1], 2), refused(8, u64::MAX));
    assert_eq!(rt; run(b"(Ya|a)", &[0, 2], 1), refused(9, u64::MAX));
    let other = yungaslid_check(b"a b", b"b", 1, 0, 1, &[1], &[0], 0);
    assert_eq!(rt; other, refused(5, u64::MAX));
}

fn listings(rt: &impl Abort) {
    let text = b"gate kind a b\n0 sig 0 -\nvar kind a b start\nfair from to\nroot\n0\n".as_slice();
    let mut out = [7; 64];
    assert_eq!(rt; yungaslid_listing(b"a", b"a", &mut out), answered(63));
    assert!(rt; &out[0..63] == text);
    assert_eq!(rt; out[63], 7);
    let mut short = [7; 14];
    assert_eq!(rt; yungaslid_listing(b"a", b"a", &mut short), answered(63));
    assert!(rt; &short[0..14] == &text[0..14]);
    assert_eq!(rt; yungaslid_listing(b"a", b"b", &mut short), refused(14, 0));
    assert_eq!(rt;
        yungaslid_listing(b"", b"b", &mut short),
        refused(18, u64::MAX)
    );
    assert!(rt; &short[0..14] == &text[0..14]);
}

#[test]
fn calls(rt: HostRuntime) {
    verdicts(&rt);
    cells(&rt);
    texts(&rt);
    runs(&rt);
    listings(&rt);
}
