// Which lines a script without runs reads.
use crate::call::Verb;
use crate::call::reading::read_call_without_runs;
use std::process::Abort;
use std::test::Fail;

fn reads(rt: &(impl Abort + AllocGlobal), line: &[u8], verb: Option<Verb>) -> Result<(), Fail> {
    let call = read_call_without_runs(rt.alloc(), line)?;
    assert_eq!(rt; call.map(|call| call.verb()), verb);
    Ok(())
}

#[test]
fn lines_without_runs(rt: HostRuntime) -> Result<(), Fail> {
    reads(&rt, b"tape 2 0 3 1 2 0", Some(Verb::Tape))?;
    reads(&rt, b"seal", Some(Verb::Seal))?;
    reads(&rt, b"run", None)?;
    reads(&rt, b"rows 5", None)?;
    reads(&rt, b"tape 2 x", None)
}
