use checker::check::check as check_run;
use foreign::kinds::Flag;
use foreign::wave::Wave;
use machine::place::Machine;
use machine::translator::translate;
use meaning::refusal::Refusal as JudgeRefusal;
use recording::gapped::GappedTape;
use recording::recording::Recording;
use recording::tape::Tape;
use recording::truth::{Ternary, Truth, TwoValued};
use recording::wheel::Wheel;
use run::answer::{Answer, Form};
use run::call::Call;
use run::form::Sheet;
use run::history::carry_out;
use run::refusal::{Refusal, WriteRefusal};
use run::step::perform;
use run::writing::{Written, write_out};
use sheet::draft::Draft;
use sheet::refusal::Refusal as SheetRefusal;
use sheet::sealed::Sealed;
use std::process::Abort;
use std::test::Fail;

// The sheet of these codes and operands.
fn sheet_of(lines: &[[u8; 3]]) -> Result<Sealed, Fail> {
    let mut draft = Draft::new();
    for line in lines {
        draft.write(line[0], line[1], line[2])?;
    }
    draft.seal().map_err(|_| Fail::new("no line"))
}

// Whether the run written out, checked on the translation, says the verdict; and which.
fn checked<B: Recording>(
    rt: &impl Abort,
    sheet: &Sealed,
    recording: &B,
    cells: &mut [B::Truth],
    rows: &mut [u64],
) -> Result<bool, Fail>
where
    B::Truth: TwoValued,
{
    let written = write_out(sheet, recording, cells, rows)?;
    assert!(rt; written.rows <= rows.len());
    let mut machine = Machine::new();
    translate(sheet, &mut machine);
    let accepted = check_run(&machine, recording, &rows[0..written.rows], written.back)?;
    assert_eq!(rt; accepted, written.verdict.is_yes());
    Ok(accepted)
}

// The second operand of a line with this code, where the first is line 2.
fn second(code: u8) -> u8 {
    if matches!(code, 2 | 5 | 8 | 9) { 0 } else { 1 }
}

// A hundred sheets, each operator above each; answers how many hold.
fn all_checked<B: Recording>(
    rt: &impl Abort,
    recording: &B,
    oil: u8,
    cells: &mut [B::Truth],
    rows: &mut [u64],
) -> Result<usize, Fail>
where
    B::Truth: TwoValued,
{
    let mut holding = 0;
    for inner in 2..12u8 {
        for outer in 2..12u8 {
            let sheet = sheet_of(&[
                [1, 0, 0],
                [1, oil, 0],
                [inner, 0, second(inner)],
                [outer, 2, second(outer)],
            ])?;
            if checked(rt, &sheet, recording, cells, rows)? && holding < 100 {
                holding += 1;
            }
        }
    }
    Ok(holding)
}

#[test]
fn runs_say_the_verdict(rt: HostRuntime) -> Result<(), Fail> {
    let mut cells = vec![in rt.alloc(); true; 2048]?;
    let mut rows = vec![in rt.alloc(); u64::MAX; 512]?;
    let tapes = [
        Tape::new(2, 1, 2, &[1, 2, 0])?,
        Tape::new(2, 0, 1, &[1])?,
        Tape::new(2, 3, 4, &[0, 3, 1, 2, 1, 1, 0])?,
        Tape::new(2, 2, 1, &[0, 2, 3])?,
    ];
    for tape in &tapes {
        let holding = all_checked(&rt, tape, 1, cells.as_mut_slice(), rows.as_mut_slice())?;
        assert!(rt; 0 < holding && holding < 100);
    }
    let wheel = Wheel::new(6, 2, 3)?;
    let turning = all_checked(&rt, &wheel, 1, cells.as_mut_slice(), rows.as_mut_slice())?;
    assert!(rt; 0 < turning && turning < 100);
    let Some(blinker) = Wave::new(Flag::On, Flag::Off, 2, 3) else {
        return Err(Fail::new("no wave"));
    };
    let mut flags = vec![in rt.alloc(); Flag::On; 2048]?;
    let blinking = all_checked(&rt, &blinker, 0, flags.as_mut_slice(), rows.as_mut_slice())?;
    assert!(rt; 0 < blinking && blinking < 100);
    Ok(())
}

// crank, oil, since, an unused next, weak since, until: variables are 0 for since, 1 for weak since and 2 for until.
#[test]
fn rows_of_a_run(rt: HostRuntime) -> Result<(), Fail> {
    let sheet = sheet_of(&[
        [1, 0, 0],
        [1, 1, 0],
        [10, 0, 1],
        [5, 0, 0],
        [11, 1, 0],
        [6, 2, 4],
    ])?;
    // crank at 0 and 2, oil at 1
    let tape = Tape::new(2, 1, 2, &[1, 2, 1])?;
    let mut cells = [true; 44];
    let mut rows = [u64::MAX; 9];
    let written = write_out(&sheet, &tape, &mut cells, &mut rows)?;
    // S = 1 + 2 * 2, N = 7
    assert_eq!(rt;
        written,
        Written {
            rows: 7,
            back: 5,
            verdict: true,
        }
    );
    // since is no, yes, yes from 1 on; weak since is yes throughout, and so is the until
    let expected = [6, 6, 7, 7, 7, 7, 7];
    for (row, bits) in rows.iter().zip(expected) {
        assert_eq!(rt; *row, bits);
    }
    assert_eq!(rt; rows[7], u64::MAX);
    assert_eq!(rt; rows[8], u64::MAX);
    assert!(rt; cells[42] && cells[43], "further cells stay");
    Ok(())
}

#[test]
fn refuses_in_order(rt: HostRuntime) -> Result<(), Fail> {
    let previous = sheet_of(&[[1, 1, 0], [8, 0, 0]])?;
    let narrow = Tape::new(1, 0, 1, &[1])?;
    let wide = Tape::new(2, 0, 1, &[3])?;
    // 2 lines at 2 samples
    let mut cells = [false, true, false, true];
    let mut rows = [7, 8];
    assert_eq!(rt;
        write_out(&previous, &narrow, &mut cells[0..3], &mut rows[0..1]),
        Err(WriteRefusal::NotJudged(JudgeRefusal::NoSignal))
    );
    assert_eq!(rt;
        write_out(&previous, &wide, &mut cells[0..3], &mut rows[0..1]),
        Err(WriteRefusal::NotJudged(JudgeRefusal::TooFewCells))
    );
    assert_eq!(rt;
        write_out(&previous, &wide, &mut cells, &mut rows[0..1]),
        Err(WriteRefusal::TooFewRows)
    );
    assert!(rt;
        !cells[0] && cells[1] && !cells[2] && cells[3],
        "the cells stay"
    );
    assert!(rt; rows[0] == 7 && rows[1] == 8, "the rows stay");
    assert_eq!(rt; WriteRefusal::NotJudged(JudgeRefusal::NoSignal).number(), 5);
    assert_eq!(rt;
        WriteRefusal::NotJudged(JudgeRefusal::TooFewCells).number(),
        6
    );
    assert_eq!(rt; WriteRefusal::TooFewRows.number(), 7);
    assert_eq!(rt;
        write_out(&previous, &wide, &mut cells, &mut rows)?,
        Written {
            rows: 2,
            back: 1,
            verdict: false,
        }
    );
    assert!(rt; rows[0] == 0 && rows[1] == 1);
    Ok(())
}

// 63 lines that look back on the longest tape: 4,352 rows of 63 bits.
#[test]
fn writes_the_largest(rt: HostRuntime) -> Result<(), Fail> {
    let mut draft = Draft::new();
    draft.write(1, 0, 0)?;
    for k in 0..63 {
        draft.write(8, k, 0)?;
    }
    let Ok(sheet) = draft.seal() else {
        return Err(Fail::new("no line"));
    };
    let tape = Tape::new(1, 256, 64, &[1; 320])?;
    let mut cells = vec![in rt.alloc(); true; 278528]?;
    let mut rows = vec![in rt.alloc(); 5u64; 4353]?;
    assert!(rt;
        !checked(
            &rt,
            &sheet,
            &tape,
            cells.as_mut_slice(),
            rows.as_mut_slice()
        )?
    );
    assert!(rt; rows.len() == 4353);
    assert!(rt;
        rows[0] == 0 && rows[1] == 1 && rows[62] == u64::MAX >> 2 && rows[63] == u64::MAX >> 1
    );
    assert!(rt; rows[4351] == u64::MAX >> 1 && rows[4352] == 5);
    Ok(())
}

#[test]
fn histories(rt: HostRuntime) -> Result<(), Fail> {
    let calls = [
        Call::Seal,
        Call::Write(12, 0, 0),
        Call::Write(1, 32, 0),
        Call::Write(1, 0, 0),
        Call::Judge(0),
        Call::Write(1, 1, 0),
        Call::Write(6, 0, 1),
        Call::Strike,
        Call::Write(7, 0, 1),
        Call::Reopen,
        Call::Seal,
        Call::Write(1, 1, 0),
        Call::Translate,
        Call::Judge(0),
        Call::Judge(1),
        Call::WriteOut(0),
        Call::WriteOut(1),
        Call::Reopen,
        Call::WriteOut(0),
    ];
    let expected = [
        Answer::Refused(Refusal::Sheet(SheetRefusal::Empty)),
        Answer::Refused(Refusal::Sheet(SheetRefusal::Code)),
        Answer::Refused(Refusal::Sheet(SheetRefusal::Operand)),
        Answer::Line(0),
        Answer::NotWhile(Form::Draft),
        Answer::Line(1),
        Answer::Line(2),
        Answer::Done,
        Answer::Line(2),
        Answer::NotWhile(Form::Draft),
        Answer::Done,
        Answer::NotWhile(Form::Sealed),
        Answer::Done,
        Answer::Verdict(Ternary::Lost),
        Answer::NoRecording,
        Answer::Run(Written {
            rows: 1,
            back: 0,
            verdict: true,
        }),
        Answer::Refused(Refusal::WriteOut(WriteRefusal::NotJudged(JudgeRefusal::NoSignal))),
        Answer::Done,
        Answer::NotWhile(Form::Draft),
    ];
    let judged = [GappedTape::new(2, 0, 1, &[0], &[1])?];
    let written = [Tape::new(2, 0, 1, &[1])?, Tape::new(1, 0, 1, &[1])?];
    let mut machine = Machine::new();
    let mut cells = [Ternary::No; 4];
    let mut bits = [false; 4];
    let mut rows = [9, 9];
    let mut answers = [Answer::Done; 20];
    let sheet = carry_out(
        Sheet::new(),
        &calls,
        &judged,
        &written,
        &mut machine,
        &mut cells,
        &mut bits,
        &mut rows,
        &mut answers,
    );
    for (answer, told) in answers.iter().zip(expected) {
        assert_eq!(rt; *answer, told);
    }
    for (i, number) in [(0, 4), (1, 1), (2, 2), (16, 5)] {
        let Answer::Refused(refusal) = answers[i] else {
            return Err(Fail::new("the call is refused"));
        };
        assert_eq!(rt; refusal.number(), number);
    }
    assert_eq!(rt; answers[19], Answer::Done);
    assert_eq!(rt; machine.gates().len(), 3);
    assert_eq!(rt; cells[2], Ternary::Lost);
    assert!(rt; rows[0] == 1 && rows[1] == 9);
    match sheet {
        Sheet::Open(draft) => assert_eq!(rt; draft.len(), 3),
        Sheet::Shut(_) => return Err(Fail::new("the sheet is reopened")),
    }
    // as many calls as there are answers for, and on from the sheet that is handed back
    let after = carry_out(
        Sheet::new(),
        &calls,
        &judged,
        &written,
        &mut machine,
        &mut cells,
        &mut bits,
        &mut rows,
        &mut answers[0..11],
    );
    let more = perform(
        after,
        Call::Judge(0),
        &judged,
        &written,
        &mut machine,
        &mut cells,
        &mut bits,
        &mut rows,
    );
    assert_eq!(rt; more.answer, Answer::Verdict(Ternary::Lost));
    match more.sheet {
        Sheet::Open(_) => Err(Fail::new("the sheet is sealed")),
        Sheet::Shut(sealed) => {
            assert_eq!(rt; sealed.lines().len(), 3);
            Ok(())
        },
    }
}
