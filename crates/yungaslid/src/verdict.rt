// The verdict of a rule on a gapped tape.
ghost use Rattle.yungaslid.specs.Answers.{told as told_as};
ghost use Rattle.yungaslid.specs.Verdicts.{Verdicts};

use crate::answer::{Answer, told};
use crate::cell::Cell;
use crate::cell::tape::CellTape;
use lexer::names::Names;
use meaning::evaluator::judge;
use recording::gapped::GappedTape;
use text::reader::read_sheet;

// With the parameters of the call from C, which are looked at in their order.
fn judged(
    names: &[u8],
    rule: &[u8],
    signals: u32,
    stem: u32,
    cycle: u32,
    masks: &[u32],
    lost: &[u32],
    cells: &mut [Cell],
) -> Result<u64, Answer>
    ensures { Verdicts names.now rule.now signals stem cycle masks.now lost.now cells.old cells.new (told_as result) }
{
    let names = Names::new(names)?;
    let tape = GappedTape::new(signals, stem, cycle, masks, lost)?;
    let sheet = read_sheet(&names, rule)?;
    let verdict = judge(&sheet, &CellTape { tape }, cells)?;
    Ok(verdict.canonical() as u64)
}

/// Judges the rule on the gapped tape of these sizes, masks and lost masks: sets cell t * L + k to the value of line k
/// at sample t, for each of the rule's L lines and each sample judged, keeps further cells, and answers the rule's value
/// at sample 0. In a cell 0 is no, 1 is lost, and any other byte is yes; the answer is 0, 1 or 2. A refusal leaves the
/// cells.
#[unsafe(no_mangle)]
pub extern "C" fn yungaslid_verdict(
    names: &[u8],
    rule: &[u8],
    signals: u32,
    stem: u32,
    cycle: u32,
    masks: &[u32],
    lost: &[u32],
    cells: &mut [Cell],
) -> Answer
    ensures { Verdicts names.now rule.now signals stem cycle masks.now lost.now cells.old cells.new result }
{
    told(judged(names, rule, signals, stem, cycle, masks, lost, cells))
}
