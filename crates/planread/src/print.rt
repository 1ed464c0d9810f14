// Reads three files by their names and prints their listing.
// Kept: this file stands twice, in planread and in planread_test, and the gate compares the two. As a library its functions would be public
// without a contract: no clause can say what a file holds or what was written.
ghost use Rattle.std.specs.Prelude.{◌≤◌, length, take};
ghost use Rattle.std.specs.Io.KnownBytes.{Consumes};

use files::list_texts;
use std::io::Read;
use std::rt::Files;
use std::{fs, io};

// Where the three files stand.
#[derive(Clone, Copy)]
pub(crate) struct Paths<'a> {
    pub sheet: &'a str,
    pub literals: &'a str,
    pub text: &'a str,
}

// Reads until the buffer is full, the input ends or a read fails; answers how many bytes that were. They are the reader's next ones.
// Kept: a loop of its own. std's `read_exact` says how many bytes there were only where the buffer was filled, `read_to_end` takes heap.
fn read_full<R: Read>(reader: &mut R, buf: &mut [u8]) -> usize
    ensures bound { result ≤ length buf.new }
    ensures bytes { Consumes (R.remaining reader.old) (R.remaining reader.new) (take result buf.new) }
{
    let mut done = 0;
    while done < buf.len() {
        match reader.read(&mut buf[done..]) {
            Ok(n) if 0 < n => done += n,
            _ => break,
        }
    }
    done
}

// The file's first bytes, in the buffer; a file that is missing is empty. A buffer of 65,536 bytes is full where the file has more than
// 65,535, and then the tests for 1, 4 and 7 refuse it.
fn load<'a>(rt: &impl Files, path: &str, buf: &'a mut [u8]) -> &'a [u8]
    ensures { length result.now ≤ length buf.old }
{
    let n = match fs::open(rt, path) {
        Ok(mut file) => read_full(&mut file, buf),
        Err(_) => 0,
    };
    &buf[..n]
}

// 199,897 bytes hold every listing (`whole_listing`, files/proofs/ListedLaws). One that cannot be written whole is told of, and the error
// is handed on. Nothing is promised: no clause can say what a file holds or what was written (docs/DECISIONS.md, 31).
pub(crate) fn print_files(rt: &(impl Files + Print + Eprint), paths: Paths<'_>) -> io::Result<()> {
    let mut sheet = [0u8; 65536];
    let mut literals = [0u8; 65536];
    let mut text = [0u8; 65536];
    let mut out = [0u8; 199897];
    let n = list_texts(
        load(rt, paths.sheet, &mut sheet),
        load(rt, paths.literals, &mut literals),
        load(rt, paths.text, &mut text),
        &mut out,
    );
    let written = rt.write_all(&out[..n]);
    if written.is_err() {
        eprintln!(rt; "planread: the listing could not be written whole")?;
    }
    written
}

// The three files of the folder that the program is run in.
pub(crate) fn print_folder(rt: &(impl Files + Print + Eprint)) -> io::Result<()> {
    print_files(
        rt,
        Paths {
            sheet: "sheet.txt",
            literals: "literals.txt",
            text: "plan.txt",
        },
    )
}
