// Reads a bench file on standard input, and prints the machine of its rule and the verdict, or a refusal.
#![tactic(auto)]

use bench_file::report::{CELLS, report};
use input::read_input;
use recording::truth::Ternary;

/// One byte more than a bench file may have.
const MOST: usize = 16_385;

fn main(rt: HostRuntime) -> anyhow::Result<()> {
    let mut buf = vec![in rt.alloc(); 0u8; MOST]?;
    let mut cells = vec![in rt.alloc(); Ternary::No; CELLS]?;
    let used = read_input(&rt, &mut buf)?;
    match report(&buf[..used], &mut cells) {
        Ok(report) => print!(rt; "{report}")?,
        Err(refusal) => print!(rt; "{refusal}")?,
    }
    Ok(())
}
