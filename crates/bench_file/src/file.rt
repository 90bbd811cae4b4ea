// The bench file as a whole.
ghost use Rattle.std.specs.Prelude.{◌≡◌, ◌<◌, ◌≤◌, length};
ghost use Rattle.bench_file.specs.Files.{lines as file_lines, Exact, Outcome};
ghost use Rattle.bench_file.specs.Steps.{SamplesOf, TopOf};

use crate::form::{Header, is_title, read_header, read_sample, take_line};
use crate::refusal::FileRefusal;
use lexer::names::Names;

// The bytes that a file may have.
const LONGEST: usize = 16384;

/// What a bench file says. Sample t has the signals that are 1 in `masks[t]` and those that are lost in `lost[t]`, for
/// t below stem + cycle; what stands there from stem + cycle on has no meaning. Two arrays, as a gapped tape takes two
/// slices; with places that are not read, since a bench file is Copy, which no vector is.
#[derive(Clone, Copy)]
pub struct BenchFile<'a> {
    pub stem: usize,
    pub cycle: usize,
    pub rule: &'a [u8],
    pub names: Names<'a>,
    pub masks: [u32; 1998],
    pub lost: [u32; 1998],
}

// What lines 0 to 2 say, and what follows them.
#[derive(Clone, Copy)]
struct Top<'a> {
    header: Header<'a>,
    names: Names<'a>,
    rest: &'a [u8],
}

fn read_top<'a>(bytes: &'a [u8]) -> Result<Top<'a>, FileRefusal>
    ensures { TopOf (file_lines bytes.now) result }
{
    let first = take_line(bytes, 0)?;
    if !is_title(first.line) {
        return Err(FileRefusal::Form { line: 0 });
    }
    let second = take_line(first.rest, 1)?;
    let Some(header) = read_header(second.line) else {
        return Err(FileRefusal::Form { line: 1 });
    };
    let third = take_line(second.rest, 2)?;
    let names = Names::new(third.line)?;
    Ok(Top {
        header,
        names,
        rest: third.rest,
    })
}

// Reads `count` samples, and answers what follows them.
fn read_samples<'a>(
    bytes: &'a [u8],
    count: usize,
    signals: u8,
    masks: &mut [u32],
    lost: &mut [u32],
) -> Result<&'a [u8], FileRefusal>
    requires few { (count ≤ 1998) × (count ≤ length masks.old) × (count ≤ length lost.old) }
    requires some { (0 < signals) × (signals ≤ 32) }
    ensures { SamplesOf (file_lines bytes.now) signals count masks.new lost.new result }
{
    let mut rest = bytes;
    for t in 0..count {
        let taken = take_line(rest, 3 + t)?;
        let Some(own) = read_sample(taken.line, signals) else {
            return Err(FileRefusal::Form { line: 3 + t });
        };
        masks[t] = own.mask;
        lost[t] = own.lost;
        rest = taken.rest;
    }
    Ok(rest)
}

/// Reads a bench file.
pub fn read_file<'a>(bytes: &'a [u8]) -> Result<BenchFile<'a>, FileRefusal>
    ensures outcome { Outcome bytes.now result }
    ensures exact { Exact bytes.now }
{
    if bytes.len() > LONGEST {
        return Err(FileRefusal::Form { line: 0 });
    }
    let top = read_top(bytes)?;
    let count = top.header.stem + top.header.cycle;
    let mut masks = [0; 1998];
    let mut lost = [0; 1998];
    let rest = read_samples(top.rest, count, top.names.count(), &mut masks, &mut lost)?;
    if !rest.is_empty() {
        return Err(FileRefusal::Form { line: 3 + count });
    }
    Ok(BenchFile {
        stem: top.header.stem,
        cycle: top.header.cycle,
        rule: top.header.rule,
        names: top.names,
        masks,
        lost,
    })
}
