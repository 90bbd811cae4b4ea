// Which call a line of a script is.
ghost use Rattle.std.specs.Prelude.{◌≡◌, ◌<◌, ◌↔◌, length, drop, Some, IfOk, IfSome, IsNone};
ghost use Rattle.asked.specs.Reading.{OnSheet, byte as byte_of, verb_of, alone as alone_of, only as only_of, writes, sizes_in, tapes, gaps, turns, checks, call_of, named as named_with, items_in, call_on, sheet_verb, bench_verb, call_verb, said, said_in};
ghost use Rattle.asked.specs.Runs.{call_without_runs};
ghost use Rattle.asked.specs.Words.{numbers};
ghost use Rattle.lexer.specs.Parts.{parts_left};

use crate::call::{BenchCall, Call, SheetCall, TapeSizes, Verb};
use crate::number::read_number;
use lexer::parts::Parts;
use std::alloc::{AllocError, Global};

impl SheetCall {
    /// Its name.
    pub fn verb(self) -> Verb
        ensures { result ≡ sheet_verb self }
    {
        match self {
            SheetCall::Write(_, _, _) => Verb::Write,
            SheetCall::Strike => Verb::Strike,
            SheetCall::Seal => Verb::Seal,
            SheetCall::Reopen => Verb::Reopen,
            SheetCall::Translate => Verb::Translate,
            SheetCall::Judge => Verb::Judge,
            SheetCall::Run => Verb::Run,
        }
    }
}

impl BenchCall {
    /// Its name.
    pub fn verb(&self) -> Verb
        ensures { result ≡ bench_verb self.now }
    {
        match self {
            BenchCall::Tape(_, _) => Verb::Tape,
            BenchCall::Gapped(_, _, _) => Verb::Gapped,
            BenchCall::Wheel(_, _, _) => Verb::Wheel,
            BenchCall::Cells(_) => Verb::Cells,
            BenchCall::Rows(_) => Verb::Rows,
            BenchCall::Check(_, _) => Verb::Check,
        }
    }
}

impl Call {
    /// Its name.
    pub fn verb(&self) -> Verb
        ensures { result ≡ call_verb self.now }
    {
        match self {
            Call::OnSheet(call) => call.verb(),
            Call::OnBench(call) => call.verb(),
        }
    }
}

fn named(word: &[u8]) -> Option<Verb>
    ensures { result ≡ verb_of word.now }
{
    match word {
        b"write" => Some(Verb::Write),
        b"strike" => Some(Verb::Strike),
        b"seal" => Some(Verb::Seal),
        b"reopen" => Some(Verb::Reopen),
        b"translate" => Some(Verb::Translate),
        b"tape" => Some(Verb::Tape),
        b"gapped" => Some(Verb::Gapped),
        b"wheel" => Some(Verb::Wheel),
        b"cells" => Some(Verb::Cells),
        b"rows" => Some(Verb::Rows),
        b"judge" => Some(Verb::Judge),
        b"run" => Some(Verb::Run),
        b"check" => Some(Verb::Check),
        _ => None,
    }
}

fn byte(n: u128) -> u8
    ensures { result ≡ byte_of n }
{
    u8::try_from(n).unwrap_or(u8::MAX)
}

// A call on the sheet that takes no number.
fn alone(call: SheetCall, numbers: &[u128]) -> Option<Call>
    ensures { said_in result ≡ alone_of (OnSheet call) numbers.now }
{
    numbers.is_empty().then_some(Call::OnSheet(call))
}

// The number, if it is one alone.
fn only(numbers: &[u128]) -> Option<u128>
    ensures { result ≡ only_of numbers.now }
{
    let [number] = numbers else {
        return None;
    };
    Some(*number)
}

fn write_call(numbers: &[u128]) -> Option<Call>
    ensures { said_in result ≡ writes numbers.now }
{
    let [code, left, right] = numbers else {
        return None;
    };
    Some(Call::OnSheet(SheetCall::Write(byte(*code), byte(*left), byte(*right))))
}

// The sizes that the first three numbers are, and the numbers after them.
fn sized(numbers: &[u128]) -> Option<(TapeSizes, &[u128])>
    ensures few { IsNone result ↔ (length numbers.now < 3) }
    ensures sizes { IfSome result (λ p. p.0 ≡ sizes_in numbers.now) }
    ensures rest { IfSome result (λ p. p.1.now ≡ drop 3 numbers.now) }
{
    let [signals, stem, cycle, rest @ ..] = numbers else {
        return None;
    };
    let sizes = TapeSizes {
        signals: *signals,
        stem: *stem,
        cycle: *cycle,
    };
    Some((sizes, rest))
}

fn tape_call(heap: Global, numbers: &[u128]) -> Result<Option<Call>, AllocError>
    ensures { IfOk result (λ o. said_in o ≡ tapes numbers.now) }
{
    let Some((sizes, masks)) = sized(numbers) else {
        return Ok(None);
    };
    let masks = Vec::from_slice(heap, masks)?;
    Ok(Some(Call::OnBench(BenchCall::Tape(sizes, masks))))
}

fn gapped_call(heap: Global, numbers: &[u128]) -> Result<Option<Call>, AllocError>
    ensures { IfOk result (λ o. said_in o ≡ gaps numbers.now) }
{
    let Some((sizes, masks)) = sized(numbers) else {
        return Ok(None);
    };
    let (masks, lost) = masks.split_at(masks.len() - masks.len() / 2);
    let masks = Vec::from_slice(heap, masks)?;
    let lost = Vec::from_slice(heap, lost)?;
    Ok(Some(Call::OnBench(BenchCall::Gapped(sizes, masks, lost))))
}

fn wheel_call(numbers: &[u128]) -> Option<Call>
    ensures { said_in result ≡ turns numbers.now }
{
    let [teeth, gap, start] = numbers else {
        return None;
    };
    Some(Call::OnBench(BenchCall::Wheel(*teeth, *gap, *start)))
}

fn check_call(heap: Global, numbers: &[u128]) -> Result<Option<Call>, AllocError>
    ensures { IfOk result (λ o. said_in o ≡ checks numbers.now) }
{
    let [back, rows @ ..] = numbers else {
        return Ok(None);
    };
    let rows = Vec::from_slice(heap, rows)?;
    Ok(Some(Call::OnBench(BenchCall::Check(*back, rows))))
}

fn with_numbers(heap: Global, verb: Verb, numbers: &[u128]) -> Result<Option<Call>, AllocError>
    ensures { IfOk result (λ o. said_in o ≡ call_of verb numbers.now) }
{
    match verb {
        Verb::Write => Ok(write_call(numbers)),
        Verb::Strike => Ok(alone(SheetCall::Strike, numbers)),
        Verb::Seal => Ok(alone(SheetCall::Seal, numbers)),
        Verb::Reopen => Ok(alone(SheetCall::Reopen, numbers)),
        Verb::Translate => Ok(alone(SheetCall::Translate, numbers)),
        Verb::Tape => tape_call(heap, numbers),
        Verb::Gapped => gapped_call(heap, numbers),
        Verb::Wheel => Ok(wheel_call(numbers)),
        Verb::Cells => Ok(only(numbers).map(|count| Call::OnBench(BenchCall::Cells(count)))),
        Verb::Rows => Ok(only(numbers).map(|count| Call::OnBench(BenchCall::Rows(count)))),
        Verb::Judge => Ok(alone(SheetCall::Judge, numbers)),
        Verb::Run => Ok(alone(SheetCall::Run, numbers)),
        Verb::Check => check_call(heap, numbers),
    }
}

// The numbers that the words are, if they all are.
fn read_numbers(heap: Global, words: Parts<'_>) -> Result<Option<Vec<u128>>, AllocError>
    ensures { IfOk result (λ o. items_in o ≡ numbers (parts_left words.entry)) }
{
    let mut found = Vec::new(heap);
    for word in words {
        let Some(number) = read_number(word) else {
            return Ok(None);
        };
        found.push(number)?;
    }
    Ok(Some(found))
}

// The call of this name with the numbers that the words are, if they all are.
#[inline]
fn with_words(heap: Global, verb: Verb, words: Parts<'_>) -> Result<Option<Call>, AllocError>
    ensures { IfOk result (λ o. said_in o ≡ named_with (Some verb) (numbers (parts_left words.entry))) }
{
    match read_numbers(heap, words)? {
        Some(numbers) => with_numbers(heap, verb, numbers.as_slice()),
        None => Ok(None),
    }
}

/// The call that a line of a script is, if it is one.
pub fn read_call(heap: Global, line: &[u8]) -> Result<Option<Call>, AllocError>
    ensures { IfOk result (λ o. said_in o ≡ call_on line.now) }
{
    let mut words = Parts::new(line, b' ');
    match words.next().and_then(named) {
        Some(verb) => with_words(heap, verb, words),
        None => Ok(None),
    }
}

/// The call that a line is, unless it is for runs: that is known by its name, before a number is read.
#[tactic(auto, using(crate::proofs::Runs::kept))]
pub fn read_call_without_runs(heap: Global, line: &[u8]) -> Result<Option<Call>, AllocError>
    ensures { IfOk result (λ o. said_in o ≡ call_without_runs line.now) }
{
    let mut words = Parts::new(line, b' ');
    match words.next().and_then(named) {
        None | Some(Verb::Rows | Verb::Run) => Ok(None),
        Some(verb) => with_words(heap, verb, words),
    }
}
