// What recordings answer, and what judging leaves and answers, on examples.
use crate::kinds::{Flag, Level};
use crate::once::{Fault, judge_once};
use crate::wave::Wave;
use meaning::evaluator::judge;
use meaning::refusal::Refusal;
use recording::gapped::GappedTape;
use recording::recording::Recording;
use recording::refusal::{TapeRefusal, WheelRefusal};
use recording::tape::Tape;
use recording::truth::{Ternary, TwoValued};
use recording::wheel::Wheel;
use sheet::draft::Draft;
use sheet::sealed::Sealed;
use std::process::Abort;
use std::test::Fail;

// The sheet of these codes and operands.
fn sheet_of(lines: &[[u8; 3]]) -> Result<Sealed, Fail> {
    let mut draft = Draft::new();
    for &[code, a, b] in lines {
        draft.write(code, a, b)?;
    }
    draft.seal().map_err(|_| Fail::new("no line"))
}

// 0 for a tape, else the number of the refusal.
fn tape_refused(signals: u32, stem: u32, cycle: u32, masks: &[u32]) -> u8 {
    Tape::new(signals, stem, cycle, masks).map_or_else(TapeRefusal::number, |_| 0)
}

// 0 for a wheel, else the number of the refusal.
fn wheel_refused(teeth: u32, gap: u32, start: u32) -> u8 {
    Wheel::new(teeth, gap, start).map_or_else(WheelRefusal::number, |_| 0)
}

// What a recording of bits answers: signal, sample, value.
fn answers<R: Recording<Truth = bool>>(
    rt: &impl Abort,
    recording: &R,
    values: &[(u32, u32, Option<bool>)],
) {
    for &(signal, sample, value) in values {
        assert_eq!(rt; recording.value(signal, sample), value);
    }
}

#[test]
fn tape_ranges(rt: HostRuntime) {
    // signals, stem, cycle, how many masks, the last of them, and the number of the refusal
    let tapes = [
        [0, 0, 1, 1, 0, 10],
        [1, 0, 1, 1, 0, 0],
        [32, 0, 1, 1, u32::MAX, 0],
        [33, 0, 1, 1, 0, 10],
        [1, 256, 64, 320, 0, 0],
        [1, 257, 1, 258, 0, 10],
        [1, 4, 0, 4, 0, 10],
        [1, 0, 64, 64, 0, 0],
        [1, 0, 65, 65, 0, 10],
        [1, u32::MAX, u32::MAX, 2, 0, 10],
        [2, 2, 3, 4, 0, 10],
        [2, 2, 3, 5, 3, 0],
        [2, 2, 3, 6, 0, 10],
        [2, 2, 3, 5, 4, 10],
        [31, 0, 1, 1, 0x8000_0000, 10],
    ];
    for [signals, stem, cycle, count, last, number] in tapes {
        let count = count as usize;
        let mut masks = [0; 320];
        assert!(rt; count > 0 && count <= 320);
        masks[count - 1] = last;
        assert_eq!(rt;
            tape_refused(signals, stem, cycle, &masks[..count]) as u32,
            number
        );
    }
}

#[test]
fn tape_values(rt: HostRuntime) -> Result<(), Fail> {
    let tape = Tape::new(2, 1, 2, &[1, 2, 0])?;
    assert!(rt; tape.signals() == 2 && tape.stem() == 1 && tape.cycle() == 2);
    answers(
        &rt,
        &tape,
        &[
            (0, 0, Some(true)),
            (1, 0, Some(false)),
            (1, 1, Some(true)),
            (1, 2, Some(false)),
            (1, 3, Some(true)),
            (1, u32::MAX, Some(true)),
            (2, 0, None),
            (u32::MAX, 0, None),
        ],
    );
    Ok(())
}

#[test]
fn gapped_tapes(rt: HostRuntime) -> Result<(), Fail> {
    let tape = GappedTape::new(2, 0, 2, &[3, 1], &[1, 0])?;
    let values = [
        (0, 0, Some(Ternary::Lost)),
        (1, 0, Some(Ternary::Yes)),
        (0, 3, Some(Ternary::Yes)),
        (1, 3, Some(Ternary::No)),
        (2, 3, None),
    ];
    for (signal, sample, value) in values {
        assert_eq!(rt; tape.value(signal, sample), value);
    }
    assert!(rt; GappedTape::new(2, 0, 2, &[3, 1], &[1]).is_err());
    assert!(rt; GappedTape::new(2, 0, 2, &[3, 1], &[1, 4]).is_err());
    assert!(rt; GappedTape::new(2, 0, 2, &[3, 4], &[1, 0]).is_err());
    assert!(rt; GappedTape::new(2, 0, 2, &[3, 1, 0], &[1, 0]).is_err());
    Ok(())
}

#[test]
fn wheels(rt: HostRuntime) -> Result<(), Fail> {
    // teeth, gap, start, and the number of the refusal
    let wheels = [
        [1, 1, 0, 11],
        [2, 1, 1, 0],
        [64, 63, 63, 0],
        [65, 1, 0, 11],
        [60, 0, 0, 11],
        [60, 60, 0, 11],
        [60, 2, 60, 11],
    ];
    for [teeth, gap, start, number] in wheels {
        assert_eq!(rt; wheel_refused(teeth, gap, start) as u32, number);
    }
    let wheel = Wheel::new(60, 2, 0)?;
    assert!(rt; wheel.signals() == 2 && wheel.stem() == 0 && wheel.cycle() == 60);
    answers(
        &rt,
        &wheel,
        &[
            (0, 57, Some(true)),
            (0, 58, Some(false)),
            (0, 59, Some(false)),
            (0, 60, Some(true)),
            (1, 59, Some(false)),
            (1, 60, Some(true)),
            (2, 0, None),
        ],
    );
    // 2 ^ 32 - 1 + 59 is 14 mod 60; wrapped, it would be 58
    let late = Wheel::new(60, 2, 59)?;
    answers(&rt, &late, &[(0, u32::MAX, Some(true))]);
    Ok(())
}

// crank is signal 0, oil signal 1.
#[test]
fn judges_tapes(rt: HostRuntime) -> Result<(), Fail> {
    let until = sheet_of(&[[1, 0, 0], [1, 1, 0], [6, 0, 1]])?;
    let weak = sheet_of(&[[1, 0, 0], [1, 1, 0], [7, 0, 1]])?;
    let not_weak = sheet_of(&[[1, 0, 0], [1, 1, 0], [7, 0, 1], [2, 2, 0]])?;
    let previous = sheet_of(&[[1, 0, 0], [8, 0, 0]])?;
    let mut cells = [true; 12];

    let tape = Tape::new(2, 1, 2, &[1, 2, 0])?;
    assert!(rt; judge(&until, &tape, &mut cells)?);
    assert!(rt; cells[0] && !cells[1] && cells[2]);
    assert!(rt; !cells[3] && cells[4] && cells[5]);
    assert!(rt; !cells[6] && !cells[7] && !cells[8]);
    assert!(rt; cells[9] && cells[10] && cells[11], "further cells stay");

    let still = Tape::new(2, 0, 1, &[1])?;
    assert!(rt; !judge(&until, &still, &mut cells)?);
    assert!(rt; judge(&weak, &still, &mut cells)?);
    assert!(rt; !judge(&not_weak, &still, &mut cells)?);

    let mut four = [true; 5];
    assert!(rt; !judge(&previous, &still, &mut four)?);
    assert!(rt; four[0] && !four[1] && four[2] && four[3] && four[4]);
    Ok(())
}

#[test]
fn judges_lost(rt: HostRuntime) -> Result<(), Fail> {
    let mut cells = [Ternary::No; 4];
    let either = sheet_of(&[[1, 0, 0], [2, 0, 0], [4, 0, 1]])?;
    let lost = GappedTape::new(1, 0, 1, &[0], &[1])?;
    assert_eq!(rt; judge(&either, &lost, &mut cells)?, Ternary::Lost);
    let until = sheet_of(&[[1, 0, 0], [1, 1, 0], [6, 0, 1]])?;
    let oil = GappedTape::new(2, 0, 1, &[2], &[1])?;
    assert_eq!(rt; judge(&until, &oil, &mut cells)?, Ternary::Yes);
    assert_eq!(rt; cells[0], Ternary::Lost);
    assert_eq!(rt; cells[3], Ternary::No);
    Ok(())
}

#[test]
fn refuses(rt: HostRuntime) -> Result<(), Fail> {
    let still = Tape::new(1, 0, 1, &[1])?;
    let mut cells = [false, true, false];
    // the unused line 0 names signal 1
    let oil = sheet_of(&[[1, 1, 0], [1, 0, 0]])?;
    assert_eq!(rt;
        judge(&oil, &still, &mut cells[0..0]),
        Err(Refusal::NoSignal)
    );
    assert_eq!(rt; judge(&oil, &still, &mut cells), Err(Refusal::NoSignal));
    // line 1 looks back, so that there are 2 samples of 2 lines
    let previous = sheet_of(&[[1, 0, 0], [9, 0, 0]])?;
    assert_eq!(rt;
        judge(&previous, &still, &mut cells),
        Err(Refusal::TooFewCells)
    );
    assert!(rt; !cells[0] && cells[1] && !cells[2], "the cells stay");
    assert_eq!(rt; Refusal::NoSignal.number(), 5);
    assert_eq!(rt; Refusal::TooFewCells.number(), 6);
    let Err(Fault::Sealing(refusal)) = judge_once(Draft::new(), &still, &mut cells) else {
        return Err(Fail::new("an empty draft was judged"));
    };
    assert_eq!(rt; refusal.number(), 4);
    Ok(())
}

// 63 lines that look back on the longest tape: 4,352 samples of 64 lines.
#[test]
fn judges_the_largest(rt: HostRuntime) -> Result<(), Fail> {
    let mut draft = Draft::new();
    draft.write(1, 0, 0)?;
    for k in 0..63 {
        draft.write(8, k, 0)?;
    }
    let sheet = draft.seal().map_err(|_| Fail::new("no line"))?;
    let tape = Tape::new(1, 256, 64, &[1; 320])?;
    let mut cells = vec![in rt.alloc(); true; 278529]?;
    assert!(rt; cells.len() == 278529);
    assert_eq!(rt;
        judge(&sheet, &tape, &mut cells.as_mut_slice()[0..278527]),
        Err(Refusal::TooFewCells)
    );
    assert!(rt; cells[63]);
    assert!(rt; !judge(&sheet, &tape, cells.as_mut_slice())?);
    // line k is yes from sample k on
    assert!(rt; !cells[63] && !cells[62 * 64 + 63] && cells[63 * 64 + 63]);
    assert!(rt; cells[4351 * 64] && cells[278527] && cells[278528]);
    Ok(())
}

#[test]
fn judges_foreign_kinds(rt: HostRuntime) -> Result<(), Fail> {
    let once = sheet_of(&[[0, 1, 0], [1, 0, 0], [6, 0, 1]])?;
    let always = sheet_of(&[[0, 0, 0], [1, 0, 0], [7, 1, 0]])?;
    assert!(rt; Wave::new(Flag::On, Flag::Off, 0, 0).is_none());
    assert!(rt; Wave::new(Flag::On, Flag::Off, 60, 5).is_none());
    assert!(rt; Wave::new(Flag::On, Flag::Off, u32::MAX, 1).is_none());

    let Some(blinker) = Wave::new(Flag::On, Flag::Off, 1, 2) else {
        return Err(Fail::new("no wave"));
    };
    let mut flags = [Flag::Off; 9];
    assert!(rt; judge(&once, &blinker, &mut flags)?.is_yes());
    assert!(rt; !judge(&always, &blinker, &mut flags)?.is_yes());

    let Some(dimmer) = Wave::new(Level(70), Level(20), 2, 3) else {
        return Err(Fail::new("no wave"));
    };
    let mut levels = [Level(0); 15];
    assert_eq!(rt; judge(&once, &dimmer, &mut levels)?, Level(70));
    assert_eq!(rt; judge(&always, &dimmer, &mut levels)?, Level(20));
    // 150 and 100 mean the same
    let Some(bright) = Wave::new(Level(150), Level(100), 1, 1) else {
        return Err(Fail::new("no wave"));
    };
    assert!(rt; judge(&always, &bright, &mut levels)?.0 >= 100);
    Ok(())
}
