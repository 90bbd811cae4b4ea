// The tables of a rule's machine.
ghost use Rattle.std.specs.Prelude.{◌≡◌};
ghost use Rattle.yungaslid.specs.Answers.{told as told_as};
ghost use Rattle.yungaslid.specs.Buffers.{over};
ghost use Rattle.yungaslid.specs.Listings.{Lists};

use crate::answer::{Answer, told};
use arrayvec::ArrayString;
use lexer::names::Names;
use machine::place::Machine;
use machine::translator::translate;
use std::fmt::Write;
use tables::printed::Printed;
use text::reader::read_sheet;

// The bytes of a page: the tables of no machine take more than 5,120.
const PAGE: usize = 6144;

// Writes a text to the front of a buffer, as far as there is room.
fn put(text: &[u8], out: &mut [u8])
    ensures { out.new ≡ over text.now out.old }
{
    let count = text.len().min(out.len());
    out[..count].copy_from_slice(&text[..count]);
}

fn list(names: &[u8], rule: &[u8], out: &mut [u8]) -> Result<u64, Answer>
    ensures { Lists names.now rule.now out.old out.new (told_as result) }
{
    let names = Names::new(names)?;
    let sheet = read_sheet(&names, rule)?;
    let mut machine = Machine::new();
    translate(&sheet, &mut machine);
    let printed = Printed { machine: &machine };
    let mut page = ArrayString::<PAGE>::new();
    write!(page, "{printed}")?;
    let text = page.as_str().as_bytes();
    put(text, out);
    Ok(text.len() as u64)
}

/// Writes the tables of the rule's machine to the front of `out`, as far as there is room, and answers how long the
/// whole text is. Further bytes of `out` stay, and a refusal leaves all.
#[unsafe(no_mangle)]
pub extern "C" fn yungaslid_listing(names: &[u8], rule: &[u8], out: &mut [u8]) -> Answer
    ensures { Lists names.now rule.now out.old out.new result }
{
    told(list(names, rule, out))
}
