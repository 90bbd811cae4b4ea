// The lines of a bench file, one by one.
ghost use Rattle.std.specs.Prelude.{◌≡◌, ◌<◌, ◌≤◌, Decides};
ghost use Rattle.bench_file.specs.Lines.{title};
ghost use Rattle.bench_file.specs.Steps.{Counted, HeaderOf, MarkOf, SampleOf, TakenLine};

use crate::refusal::FileRefusal;
use lexer::parts::first_part;

/// The stem, the cycle and the rule of line 1.
#[derive(Clone, Copy)]
pub(crate) struct Header<'a> {
    pub(crate) stem: usize,
    pub(crate) cycle: usize,
    pub(crate) rule: &'a [u8],
}

/// The signals that are 1 at a sample, and those that are lost, signal i as bit i.
#[derive(Clone, Copy)]
pub(crate) struct Sample {
    pub(crate) mask: u32,
    pub(crate) lost: u32,
}

/// A line that is ended, and what follows it.
#[derive(Clone, Copy)]
pub(crate) struct Taken<'a> {
    pub(crate) line: &'a [u8],
    pub(crate) rest: &'a [u8],
}

// The first line, which has that number.
pub(crate) fn take_line<'a>(bytes: &'a [u8], number: usize) -> Result<Taken<'a>, FileRefusal>
    ensures { TakenLine bytes.now number result }
{
    let part = first_part(bytes, b'\n');
    let rest = part.rest.ok_or(FileRefusal::Form { line: number })?;
    Ok(Taken {
        line: part.bytes,
        rest,
    })
}

// Whether that is line 0.
pub(crate) fn is_title(line: &[u8]) -> bool
    ensures { Decides result (line.now ≡ title) }
{
    line == b"stem cycle rule".as_slice()
}

// The value of one to three digits.
fn numeral(digits: &[u8]) -> Option<usize>
    ensures { Counted digits.now result }
{
    if digits.is_empty() || digits.len() > 3 {
        return None;
    }
    let mut value = 0;
    for &digit in digits {
        value = value * 10 + char::from(digit).to_digit(10)? as usize;
    }
    Some(value)
}

// The fields of line 1.
pub(crate) fn read_header<'a>(line: &'a [u8]) -> Option<Header<'a>>
    ensures { HeaderOf line.now result }
{
    let first = first_part(line, b' ');
    let after = first.rest?;
    let second = first_part(after, b' ');
    let rule = second.rest?;
    let stem = numeral(first.bytes)?;
    let cycle = numeral(second.bytes)?;
    Some(Header { stem, cycle, rule })
}

// What a mark says of signal 0.
fn mark(bytes: &[u8]) -> Option<Sample>
    ensures { MarkOf bytes.now result }
{
    match bytes {
        [b'0'] => Some(Sample { mask: 0, lost: 0 }),
        [b'1'] => Some(Sample { mask: 1, lost: 0 }),
        [b'?'] => Some(Sample { mask: 0, lost: 1 }),
        _ => None,
    }
}

// The marks of a line.
pub(crate) fn read_sample(line: &[u8], signals: u8) -> Option<Sample>
    requires { (0 < signals) × (signals ≤ 32) }
    ensures { SampleOf signals line.now result }
{
    let part = first_part(line, b' ');
    let own = mark(part.bytes)?;
    match part.rest {
        None if signals == 1 => Some(own),
        Some(rest) if signals > 1 => {
            let others = read_sample(rest, signals - 1)?;
            Some(Sample {
                mask: own.mask + 2 * others.mask,
                lost: own.lost + 2 * others.lost,
            })
        }
        _ => None,
    }
}
