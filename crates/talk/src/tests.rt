// What the lines of a script answer.
use crate::{Calls, Desk, answer_all, answer_without_runs, talk_with_all, talk_without_runs};
use std::alloc::{Allocator, Global};
use std::cell::Cell;
use std::fmt::Display;
use std::io;
use std::io::{BufRead, ErrorKind, Lines};
use std::process::Abort;
use std::test::Fail;

// The line is a call, and answers so.
fn tells(
    rt: &(impl Abort + AllocGlobal),
    desk: &mut Desk,
    line: &[u8],
    text: &str,
) -> Result<(), Fail> {
    let told = desk.answer_line(rt.alloc(), line)?;
    let told = told.ok_or("unread")?;
    let printed = format!(in rt.alloc(); "{told}")?;
    assert_eq!(rt; printed.as_str(), text);
    Ok(())
}

// The line is no call of the script.
fn unread(rt: &(impl Abort + AllocGlobal), desk: &mut Desk, line: &[u8]) -> Result<(), Fail> {
    let told = desk.answer_line(rt.alloc(), line)?;
    assert!(rt; told.is_none());
    Ok(())
}

#[test]
fn without_runs(rt: HostRuntime) -> Result<(), Fail> {
    let mut desk = Desk::new(rt.alloc(), Calls::WithoutRuns)?;
    tells(&rt, &mut desk, b"write 0 0 0", "write: line 0")?;
    tells(&rt, &mut desk, b"seal", "seal: done")?;
    tells(&rt, &mut desk, b"translate", "translate:")?;
    unread(&rt, &mut desk, b"rows 5")?;
    unread(&rt, &mut desk, b"run")?;
    tells(&rt, &mut desk, b"tape 1 0 1 1", "tape: done")
}

#[test]
fn with_runs(rt: HostRuntime) -> Result<(), Fail> {
    let mut desk = Desk::new(rt.alloc(), Calls::All)?;
    tells(&rt, &mut desk, b"rows 5", "rows: done")?;
    unread(&rt, &mut desk, b"run 5")
}

// The system's number of a broken pipe.
const BROKEN_PIPE: i32 = 32;

// A terminal that gives a text, and breaks where it would take another text than the one that is wanted.
#[derive(Drop)]
struct Terminal<'a> {
    heap: Global,
    given: &'a [u8],
    wanted: &'a str,
    taken: Cell<usize>,
}

impl<'a> Terminal<'a> {
    fn new(heap: Global, given: &'a [u8], wanted: &'a str) -> Terminal<'a> {
        Terminal {
            heap,
            given,
            wanted,
            taken: Cell::new(0),
        }
    }

    // Whether it took all that is wanted.
    fn has_all(&self) -> bool {
        self.taken.get() == self.wanted.len()
    }
}

impl Alloc for Terminal<'_> {
    type A = Global;

    fn alloc(&self) -> Global {
        self.heap
    }
}

impl<'a> Input for Terminal<'a> {
    type Reader = &'a [u8];

    fn read_line<A: Allocator + Clone>(&self, buf: &mut String<A>) -> io::Result<usize> {
        self.reader().read_line(buf)
    }

    fn lines<A: Allocator>(&self, alloc: A) -> Lines<&'a [u8], A> {
        self.reader().lines(alloc)
    }

    fn reader(&self) -> &'a [u8] {
        self.given
    }
}

impl Print for Terminal<'_> {
    fn print<D: Display + Drop>(&self, value: D) -> io::Result<()> {
        let text = format!(in self.heap; "{value}")?;
        self.write_all(text.as_bytes())
    }

    fn println<D: Display + Drop>(&self, value: D) -> io::Result<()> {
        self.print(value)?;
        self.write_all(b"\n")
    }

    fn write_all(&self, bytes: &[u8]) -> io::Result<()> {
        let taken = self.taken.get();
        let rest = self.wanted.as_bytes().get(taken..).unwrap_or(b"");
        if !rest.starts_with(bytes) {
            return Err(io::Error::from_raw_os_error(BROKEN_PIPE));
        }
        self.taken.set(taken.saturating_add(bytes.len()));
        Ok(())
    }
}

const SCRIPT: &[u8] = b"write 0 0 0\nrows 5\nseal\n";

const ALL: &str = "write: line 0\nrows: done\nseal: done\n";

const WITHOUT_RUNS: &str = "write: line 0\nunread: 1\nseal: done\n";

#[test]
fn terminals(rt: HostRuntime) -> Result<(), Fail> {
    let all = Terminal::new(rt.alloc(), SCRIPT, ALL);
    assert_eq!(rt; talk_with_all(&all)?, Calls::All);
    assert!(rt; all.has_all());
    let all = Terminal::new(rt.alloc(), SCRIPT, ALL);
    answer_all(&all)?;
    assert!(rt; all.has_all());
    let some = Terminal::new(rt.alloc(), SCRIPT, WITHOUT_RUNS);
    assert_eq!(rt; talk_without_runs(&some)?, Calls::WithoutRuns);
    assert!(rt; some.has_all());
    let some = Terminal::new(rt.alloc(), SCRIPT, WITHOUT_RUNS);
    answer_without_runs(&some)?;
    assert!(rt; some.has_all());
    Ok(())
}

// It was stopped by the terminal, and says by which error.
fn stopped(rt: &impl Abort, terminal: &Terminal<'_>, answered: io::Result<()>) {
    let error = answered.map_err(|error| (error.kind(), error.raw_os_error()));
    assert_eq!(rt; error, Err((ErrorKind::BrokenPipe, Some(BROKEN_PIPE))));
    assert!(rt; terminal.has_all());
}

#[test]
fn broken_terminals(rt: HostRuntime) -> Result<(), Fail> {
    let broken = Terminal::new(rt.alloc(), SCRIPT, "write: line 0\n");
    stopped(&rt, &broken, answer_all(&broken));
    let broken = Terminal::new(rt.alloc(), SCRIPT, "write: line 0\nunread: 1\n");
    stopped(&rt, &broken, answer_without_runs(&broken));
    Ok(())
}
