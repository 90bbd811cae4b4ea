// Reads calls from standard input, one a line, and prints each answer before the next call is made. It knows no calls that
// write runs out.
#![tactic(auto)]

use talk::talk_without_runs;

fn main(rt: HostRuntime) -> anyhow::Result<()> {
    talk_without_runs(&rt)?;
    Ok(())
}
