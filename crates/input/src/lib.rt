// Standard input, as far as a buffer goes.
#![tactic(auto)]

ghost use Rattle.std.specs.Prelude.{◌≤◌, length, IfOk};

use std::io;
use std::io::Read;

/// Reads standard input until it ends or the buffer is full, and answers how many bytes came.
pub fn read_input(rt: &impl Input, buf: &mut [u8]) -> io::Result<usize>
    ensures { IfOk result (λ n. n ≤ length buf.new) }
{
    let mut used = 0;
    let mut input = rt.reader();
    while used < buf.len() {
        let n = input.read(&mut buf[used..])?;
        if n == 0 {
            break;
        }
        used += n;
    }
    Ok(used)
}
