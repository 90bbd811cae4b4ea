// Judging with two values and with three.
use crate::making::sheet_of;
use crate::sums::{AsByte, of_cells};
use meaning::evaluator::judge;
use recording::gapped::GappedTape;
use recording::recording::Recording;
use recording::tape::Tape;
use recording::truth::Truth;
use sheet::sealed::Sealed;
use std::alloc::Global;

// Judges so many rounds with so many cells, and sums these; 0 where there is no memory for them.
fn judge_rounds<R: Recording>(
    heap: Global,
    sheet: &Sealed,
    recording: &R,
    cells: usize,
    rounds: u32,
) -> u64
where
    R::Truth: AsByte,
{
    let Ok(mut own) = Vec::from_elem(heap, R::Truth::no(), cells) else {
        return 0;
    };
    for _ in 0..rounds {
        let _ = judge(sheet, recording, own.as_mut_slice());
    }
    of_cells(own.as_slice())
}

/// Judges lines on a tape, with so many cells; 0 where something is refused.
#[unsafe(no_mangle)]
pub extern "C" fn figures_judge_two(
    heap: Global,
    lines: &[u8],
    signals: u32,
    stem: u32,
    cycle: u32,
    masks: &[u32],
    cells: usize,
    rounds: u32,
) -> u64 {
    let Some(sheet) = sheet_of(lines) else {
        return 0;
    };
    let Ok(tape) = Tape::new(signals, stem, cycle, masks) else {
        return 0;
    };
    judge_rounds(heap, &sheet, &tape, cells, rounds)
}

/// Judges lines on a gapped tape, with so many cells; 0 where something is refused.
#[unsafe(no_mangle)]
pub extern "C" fn figures_judge_three(
    heap: Global,
    lines: &[u8],
    signals: u32,
    stem: u32,
    cycle: u32,
    masks: &[u32],
    lost: &[u32],
    cells: usize,
    rounds: u32,
) -> u64 {
    let Some(sheet) = sheet_of(lines) else {
        return 0;
    };
    let Ok(tape) = GappedTape::new(signals, stem, cycle, masks, lost) else {
        return 0;
    };
    judge_rounds(heap, &sheet, &tape, cells, rounds)
}
