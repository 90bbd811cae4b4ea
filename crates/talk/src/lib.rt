// Reads calls from standard input, one a line, and prints each answer before the next call is made.
#![tactic(auto)]

ghost use Rattle.std.specs.Prelude.{◌≡◌, IfOk, OnErr};
ghost use Rattle.session.specs.Benches.{Fresh};
ghost use Rattle.talk.specs.Desks.{read_by, Answered, Tells};
ghost use Rattle.talk.specs.declared.Calls.TheVariants.{All, WithoutRuns};
ghost use Rattle.asked.specs.Reading.{said_in};

use asked::call::Call;
use asked::call::reading::{read_call, read_call_without_runs};
use input::read_input;
use machine::place::Machine;
use run::form::Sheet;
use session::answer::Answer;
use session::bench::Bench;
use session::performing::perform;
use std::alloc::{AllocError, Global};
use std::{io, mem};
use tables::printed::Printed;
use telling::told::{JudgedRows, RunRows, Told};

#[cfg(test)]
mod tests;

/// How many bytes of input are read at most.
const MOST: usize = 1_048_576;

/// How many cells of each truth kind there are, and how many rows.
const CELLS: usize = 278_528;

const ROWS: usize = 4_352;

/// Which calls a script has.
#[derive(Clone, Copy, PartialEq, Eq, Debug)]
pub enum Calls {
    All,
    WithoutRuns,
}

// All that the calls of a script are made on, and which calls it has.
#[derive(Drop)]
struct Desk {
    calls: Calls,
    sheet: Sheet,
    machine: Machine,
    bench: Bench,
}

impl Desk {
    fn new(heap: Global, calls: Calls) -> Result<Desk, AllocError>
        ensures calls { IfOk result (λ d. d.calls ≡ calls) }
        ensures bench { IfOk result (λ d. Fresh 278_528 4_352 d.bench) }
    {
        Ok(Desk {
            calls,
            sheet: Sheet::new(),
            machine: Machine::new(),
            bench: Bench::new(heap, CELLS, ROWS)?,
        })
    }

    // The call that the line is, if the script has it.
    fn read(&self, heap: Global, line: &[u8]) -> Result<Option<Call>, AllocError>
        ensures { IfOk result (λ o. said_in o ≡ read_by self.now.calls line.now) }
    {
        match self.calls {
            Calls::All => read_call(heap, line),
            Calls::WithoutRuns => read_call_without_runs(heap, line),
        }
    }

    // Makes the call; where memory is short, it changes nothing.
    fn answer(&mut self, heap: Global, call: Call) -> Result<Told, AllocError>
        ensures tells { IfOk result (Tells call self.old self.new) }
        ensures calls { self.new.calls ≡ self.old.calls }
        ensures short { OnErr result (self.new ≡ self.old) }
    {
        let verb = call.verb();
        let answer = match call {
            Call::OnSheet(call) => {
                let sheet = mem::replace(&mut self.sheet, Sheet::new());
                let stepped = perform(sheet, call, &mut self.machine, &mut self.bench);
                self.sheet = stepped.sheet;
                stepped.answer
            }
            Call::OnBench(call) => self.bench.answer(heap, call, &self.machine)?,
        };
        Ok(Told { verb, answer })
    }

    // Makes the call that the line is, if the script has it.
    fn answer_line(&mut self, heap: Global, line: &[u8]) -> Result<Option<Told>, AllocError>
        ensures answers { IfOk result (Answered (read_by self.old.calls line.now) self.old self.new) }
        ensures calls { self.new.calls ≡ self.old.calls }
        ensures short { OnErr result (self.new ≡ self.old) }
    {
        match self.read(heap, line)? {
            Some(call) => Ok(Some(self.answer(heap, call)?)),
            None => Ok(None),
        }
    }

    // Prints an answer, and what follows it.
    fn tell(&self, rt: &impl Print, told: Told) -> io::Result<()> {
        println!(rt; "{told}")?;
        match told.answer {
            Answer::Tables => {
                let machine = &self.machine;
                print!(rt; "{}", Printed { machine })
            }
            Answer::Values(judged) => {
                let bench = &self.bench;
                let filled = judged.filled;
                print!(rt; "{}", JudgedRows { bench, filled })
            }
            Answer::Run(run) => {
                let bench = &self.bench;
                let count = run.rows;
                print!(rt; "{}", RunRows { bench, count })
            }
            _ => Ok(()),
        }
    }
}

// Answers the lines of a text, one after another: a line that is no call of the script is told as unread, by its number.
fn answer_lines<E: From<io::Error> + From<AllocError>>(
    rt: &(impl Print + AllocGlobal),
    text: &[u8],
    mut desk: Desk,
) -> Result<(), E> {
    for (number, line) in text.split_inclusive(|byte| *byte == b'\n').enumerate() {
        let line = line.strip_suffix(b"\n").unwrap_or(line);
        match desk.answer_line(rt.alloc(), line)? {
            Some(told) => desk.tell(rt, told)?,
            None => println!(rt; "unread: {number}")?,
        }
    }
    Ok(())
}

// Answers the lines of a text on a new desk, and which calls that has.
fn answer_text<E: From<io::Error> + From<AllocError>>(
    rt: &(impl Print + AllocGlobal),
    text: &[u8],
    calls: Calls,
) -> Result<Calls, E>
    ensures { IfOk result (λ had. had ≡ calls) }
{
    let desk = Desk::new(rt.alloc(), calls)?;
    let had = desk.calls;
    let told: Result<(), E> = answer_lines(rt, text, desk);
    told?;
    Ok(had)
}

// The text that comes from standard input, as far as the buffer goes.
fn read_text<'a>(rt: &impl Input, buf: &'a mut [u8]) -> io::Result<&'a [u8]> {
    let used = read_input(rt, buf)?;
    Ok(&buf[..used])
}

// Answers the lines of standard input, with these calls. Of input that is too long no line is read.
fn answer_input<E: From<io::Error> + From<AllocError>>(
    rt: &(impl Print + Input + AllocGlobal),
    calls: Calls,
) -> Result<Calls, E>
    ensures { IfOk result (λ had. had ≡ calls) }
{
    let mut buf = vec![in rt.alloc(); 0u8; MOST + 1]?;
    let text = read_text(rt, &mut buf)?;
    if text.len() > MOST {
        println!(rt; "unread: too long")?;
        return Ok(calls);
    }
    answer_text(rt, text, calls)
}

/// Answers the lines of standard input, of all calls, and which calls that were. What the terminal gave and took no
/// contract can say.
pub fn talk_with_all(rt: &(impl Print + Input + AllocGlobal)) -> anyhow::Result<Calls>
    ensures { IfOk result (λ had. had ≡ All) }
{
    answer_input(rt, Calls::All)
}

/// Answers the lines of standard input, but for the calls that write runs out, which it tells as unread.
pub fn talk_without_runs(rt: &(impl Print + Input + AllocGlobal)) -> anyhow::Result<Calls>
    ensures { IfOk result (λ had. had ≡ WithoutRuns) }
{
    answer_input(rt, Calls::WithoutRuns)
}

// Answers as `answer_input` does, and fails with the error itself, of which `anyhow` keeps the text alone.
fn answer_or_error(rt: &(impl Print + Input + AllocGlobal), calls: Calls) -> io::Result<Calls>
    ensures { IfOk result (λ had. had ≡ calls) }
{
    answer_input(rt, calls)
}

/// Answers the lines of standard input, of all calls, for a caller who has to know which error stopped it.
pub fn answer_all(rt: &(impl Print + Input + AllocGlobal)) -> io::Result<()> {
    match answer_or_error(rt, Calls::All)? {
        Calls::All => Ok(()),
        Calls::WithoutRuns => unreachable!(),
    }
}

/// Answers the lines of standard input, but for the calls that write runs out, for a caller who has to know which error
/// stopped it.
pub fn answer_without_runs(rt: &(impl Print + Input + AllocGlobal)) -> io::Result<()> {
    match answer_or_error(rt, Calls::WithoutRuns)? {
        Calls::WithoutRuns => Ok(()),
        Calls::All => unreachable!(),
    }
}
