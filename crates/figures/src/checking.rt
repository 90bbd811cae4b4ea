// The run check.
use crate::making::sheet_of;
use checker::check::check;
use machine::place::Machine;
use machine::translator::translate;
use recording::tape::Tape;

/// Checks rows as a run of the machine of lines on a tape, and answers in how many rounds they were accepting; 0 where
/// something is refused.
#[unsafe(no_mangle)]
pub extern "C" fn figures_check(
    lines: &[u8],
    signals: u32,
    stem: u32,
    cycle: u32,
    masks: &[u32],
    rows: &[u64],
    back: usize,
    rounds: u32,
) -> u64 {
    let Some(sheet) = sheet_of(lines) else {
        return 0;
    };
    let Ok(tape) = Tape::new(signals, stem, cycle, masks) else {
        return 0;
    };
    let mut machine = Machine::new();
    translate(&sheet, &mut machine);
    let mut accepted: u64 = 0;
    for _ in 0..rounds {
        if let Ok(true) = check(&machine, &tape, rows, back) {
            accepted = accepted.wrapping_add(1);
        }
    }
    accepted
}
