// Replays the fixed list of answers (rust/README.md, "The binary form"): runs each recorded case and compares number, place, count, counted
// calls and both areas with the recorded ones, which are pest's wherever pest has an answer. Writes a line a file.
#![tactic(auto)]

ghost use Rattle.std.specs.Prelude.{◌≤◌, length, take};
ghost use Rattle.std.specs.Io.KnownBytes.{Consumes};

mod answer;
mod record;
mod words;

use crate::record::replay;
use crate::words::{Fault, Records};
use std::alloc::AllocError;
use std::io::Read;
use std::rt::Files;
use std::{fs, io};

// Reads until the buffer is full, the input ends or a read fails; answers how many bytes that were. They are the reader's next ones.
// Kept: a loop of its own, as in planread's print.rt, which is another program.
fn read_full<R: Read>(reader: &mut R, buf: &mut [u8]) -> usize
    ensures bound { result ≤ length buf.new }
    ensures bytes { Consumes (R.remaining reader.old) (R.remaining reader.new) (take result buf.new) }
{
    let mut done = 0;
    while done < buf.len() {
        match reader.read(&mut buf[done..]) {
            Ok(n) if 0 < n => done += n,
            _ => break,
        }
    }
    done
}

// The file's first bytes, in the buffer; a file that is missing is empty.
fn load<'a>(rt: &impl Files, name: &str, buf: &'a mut [u8]) -> &'a [u8]
    ensures { length result.now ≤ length buf.old }
{
    let n = match fs::open(rt, name) {
        Ok(mut file) => read_full(&mut file, buf),
        Err(_) => 0,
    };
    &buf[..n]
}

// A file that is missing has no answers. One has 65,536 bytes at most. Of the answers that differ only a file's first is told.
fn replay_file(rt: &(impl Files + Print + AllocGlobal), name: &str) -> io::Result<()> {
    let mut buf = [0u8; 65536];
    let mut agree = 0u32;
    let mut differ = 0u32;
    for record in Records(load(rt, name, &mut buf)) {
        match replay(rt.alloc(), record) {
            Ok(()) => agree = agree.saturating_add(1),
            Err(Fault::Differs(difference)) => {
                if differ == 0 {
                    println!(rt; "{difference}")?;
                }
                differ = differ.saturating_add(1);
            }
            Err(Fault::NoRoom(running)) => {
                println!(rt; "answer {running}: longer than this program's areas")?;
                differ = differ.saturating_add(1);
            }
            Err(Fault::NotWhole) => {
                println!(rt; "a record is not whole")?;
                differ = differ.saturating_add(1);
            }
            Err(Fault::NoMemory) => return Err(AllocError.into()),
        }
    }
    println!(rt; "{name}: {agree} answers agree, {differ} differ")
}

fn main(rt: HostRuntime) -> io::Result<()> {
    for name in [
        "answers-01.bin",
        "answers-02.bin",
        "answers-03.bin",
        "answers-04.bin",
        "answers-05.bin",
        "answers-06.bin",
        "answers-long.bin",
    ] {
        replay_file(&rt, name)?;
    }
    Ok(())
}
