// Reads calls from standard input, one a line, and prints each answer before the next call is made. It knows all calls.
#![tactic(auto)]

use talk::talk_with_all;

fn main(rt: HostRuntime) -> anyhow::Result<()> {
    talk_with_all(&rt)?;
    Ok(())
}
