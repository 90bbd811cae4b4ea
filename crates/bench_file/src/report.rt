// What is reported of a bench file.
ghost use Rattle.std.specs.Prelude.{◌≡◌, ◌≤◌, length, OnErr};
ghost use Rattle.recording.specs.Made.{gapped_word};
ghost use Rattle.sheet.specs.Sheets.{sealed_lines};
ghost use Rattle.bench_file.specs.Reports.{Reports};
ghost use Rattle.bench_file.specs.Reporting.{Taped, Told};

use crate::file::{BenchFile, read_file};
use crate::outcome::{Report, ReportRefusal};
use machine::place::Machine;
use machine::translator::translate;
use meaning::evaluator::judge;
use meaning::refusal::Refusal;
use recording::gapped::GappedTape;
use recording::refusal::TapeRefusal;
use recording::truth::Ternary;
use sheet::sealed::Sealed;
use text::reader::read_sheet;

/// How many cells the listing program judges with.
pub const CELLS: usize = 61_440;

// The recording of a file.
fn tape_of(file: &BenchFile) -> Result<GappedTape, TapeRefusal>
    requires sized { (length file.now.masks ≡ 1998) × (length file.now.lost ≡ 1998) }
    requires few { (file.now.stem ≤ 999) × (file.now.cycle ≤ 999) }
    ensures { Taped file.now result }
{
    let count = file.stem + file.cycle;
    GappedTape::new(
        file.names.count() as u32,
        file.stem as u32,
        file.cycle as u32,
        &file.masks[..count],
        &file.lost[..count],
    )
}

// The machine and the verdict of a sheet on a tape.
fn judged(sheet: &Sealed, tape: &GappedTape, cells: &mut [Ternary]) -> Result<Report, Refusal>
    ensures tells { Told (sealed_lines sheet.now) (gapped_word tape.now) (length cells.old) result }
    ensures kept { OnErr result (cells.new ≡ cells.old) }
{
    let verdict = judge(sheet, tape, cells)?;
    let mut machine = Machine::new();
    translate(sheet, &mut machine);
    Ok(Report { machine, verdict })
}

/// What is reported of a bench file, or why it is refused.
pub fn report(bytes: &[u8], cells: &mut [Ternary]) -> Result<Report, ReportRefusal>
    ensures reports { Reports bytes.now (length cells.old) result }
    ensures kept { OnErr result (cells.new ≡ cells.old) }
{
    let file = read_file(bytes)?;
    let tape = tape_of(&file)?;
    let sheet = read_sheet(&file.names, file.rule)?;
    Ok(judged(&sheet, &tape, cells)?)
}
