// Runs the cases of standard input through `run`, one a line, and writes a line for each. What is to be written was worked out from
// document 01, the counted calls by the oracle (rust/oracle) and, of the last five, by hand. A line that begins with # says what the cases
// behind it show.
#![tactic(auto)]

ghost use Rattle.std.specs.Prelude.{◌≤◌, length, IfOk};

mod case;
mod digits;
mod nodes;
mod show;

use crate::case::Case;
use std::io;
use std::io::Read;

// Reads until the buffer is full or the input ends; answers how many bytes that were.
// Kept: a loop of its own. std's `read_exact` says how many bytes there were only where the buffer was filled, `read_to_end` takes heap.
fn read_full(reader: &mut impl Read, buf: &mut [u8]) -> io::Result<usize>
    ensures { IfOk result (λ n. n ≤ length buf.new) }
{
    let mut done = 0;
    while done < buf.len() {
        let n = reader.read(&mut buf[done..])?;
        if n == 0 {
            break;
        }
        done += n;
    }
    Ok(done)
}

// The input's first 65,536 bytes, which need not be text, are read before the first case runs.
fn main(rt: HostRuntime) -> io::Result<()> {
    let mut input = [0u8; 65536];
    let n = read_full(&mut rt.reader(), &mut input)?;
    for line in input[..n].split(|b| *b == b'\n') {
        if !line.is_empty() && !line.starts_with(b"#") {
            Case::of(line).run(&rt)?;
        }
    }
    Ok(())
}
