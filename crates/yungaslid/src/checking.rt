// The check of a run.
ghost use Rattle.yungaslid.specs.Answers.{told as told_as};
ghost use Rattle.yungaslid.specs.Checks.{Checks};

use crate::answer::{Answer, told};
use checker::check::check;
use lexer::names::Names;
use machine::place::Machine;
use machine::translator::translate;
use recording::tape::Tape;
use text::reader::read_sheet;

// With the parameters of the call from C, which are looked at in their order.
fn checked(
    names: &[u8],
    rule: &[u8],
    signals: u32,
    stem: u32,
    cycle: u32,
    masks: &[u32],
    rows: &[u64],
    back: usize,
) -> Result<u64, Answer>
    ensures { Checks names.now rule.now signals stem cycle masks.now rows.now back (told_as result) }
{
    let names = Names::new(names)?;
    let tape = Tape::new(signals, stem, cycle, masks)?;
    let sheet = read_sheet(&names, rule)?;
    let mut machine = Machine::new();
    translate(&sheet, &mut machine);
    let accepting = check(&machine, &tape, rows, back)?;
    Ok(accepting as u64)
}

/// Whether the rows are an accepting run of the rule's machine on the tape of these sizes and masks: 1 for yes, 0 for
/// no. Bit j of row t is variable j, and after the last row comes row `back`.
#[unsafe(no_mangle)]
pub extern "C" fn yungaslid_check(
    names: &[u8],
    rule: &[u8],
    signals: u32,
    stem: u32,
    cycle: u32,
    masks: &[u32],
    rows: &[u64],
    back: usize,
) -> Answer
    ensures { Checks names.now rule.now signals stem cycle masks.now rows.now back result }
{
    told(checked(names, rule, signals, stem, cycle, masks, rows, back))
}
