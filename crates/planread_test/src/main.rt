// Runs planread's work on the examples, and on small sheets that it writes itself, and writes each listing under a heading. Among these are
// all numbers that planread can print: not 3, 8, 9 and 11, since its areas and limits are always good.
#![tactic(auto)]

mod print;

use crate::print::{Paths, print_files, print_folder};
use std::rt::Runtime;
use std::{fs, io};

const EMPTY_LINE: &str = "   5           0           0           0\n";

const REPEATED_LETTER: &str =
    "   1           0           1           0\n  10           1           0           0\n";

fn list(rt: &impl Runtime, name: &str, paths: Paths<'_>) -> io::Result<()> {
    println!(rt; "{name}:")?;
    print_files(rt, paths)
}

// The three files as they stand.
fn list_folder(rt: &impl Runtime, name: &str) -> io::Result<()> {
    println!(rt; "{name}:")?;
    print_folder(rt)
}

fn case(
    rt: &impl Runtime,
    name: &str,
    sheet: &str,
    literals: &[u8],
    text: &[u8],
) -> io::Result<()> {
    fs::write(rt, "sheet.txt", sheet)?;
    fs::write(rt, "literals.txt", literals)?;
    fs::write(rt, "plan.txt", text)?;
    list_folder(rt, name)
}

// A grammar that stands in files, over a text.
fn over(rt: &impl Runtime, name: &str, sheet: &str, literals: &str, text: &[u8]) -> io::Result<()> {
    fs::write(rt, "plan.txt", text)?;
    let text = "plan.txt";
    list(
        rt,
        name,
        Paths {
            sheet,
            literals,
            text,
        },
    )
}

// Copies of the folders of examples/.
fn examples(rt: &impl Runtime) -> io::Result<()> {
    for example in ["first", "channels", "json", "heredoc", "two-roots"] {
        let sheet = format!(in rt.alloc(); "{example}/sheet.txt")?;
        let literals = format!(in rt.alloc(); "{example}/literals.txt")?;
        let text = format!(in rt.alloc(); "{example}/plan.txt")?;
        let paths = Paths {
            sheet: sheet.as_str(),
            literals: literals.as_str(),
            text: text.as_str(),
        };
        list(rt, example, paths)?;
    }
    Ok(())
}

fn sheets(rt: &impl Runtime) -> io::Result<()> {
    let missing = Paths {
        sheet: "none",
        literals: "none",
        text: "none",
    };
    list(rt, "no files", missing)?;
    let folder = Paths {
        sheet: "first",
        literals: "first/literals.txt",
        text: "first/plan.txt",
    };
    list(rt, "a folder for a sheet", folder)?;
    case(rt, "empty sheet", "", b"", b"")?;
    case(
        rt,
        "40 bytes a line",
        "  1           0           1           0\n",
        b"abc",
        b"a",
    )?;
    case(
        rt,
        "malformed field",
        "   1           0           1           0\n   8          +7           1           0\n",
        b"abc",
        b"a",
    )?;
    case(rt, "empty literals and text", EMPTY_LINE, b"", b"")
}

// 41 times 1,598 is 65,518; 41 times 1,599 is 65,559.
fn long_sheets(rt: &impl Runtime) -> io::Result<()> {
    fs::write(rt, "sheet.txt", EMPTY_LINE.repeat(rt.alloc(), 1598)?)?;
    list_folder(rt, "sheet of 65,518 bytes")?;
    fs::write(rt, "sheet.txt", EMPTY_LINE.repeat(rt.alloc(), 1599)?)?;
    list_folder(rt, "sheet of 65,559 bytes")
}

fn literals(rt: &impl Runtime) -> io::Result<()> {
    let line = "   1       65534           1           0\n";
    case(rt, "literals not UTF-8", line, b"\xC3\x28", b"a")?;
    fs::write(rt, "literals.txt", "a".repeat(rt.alloc(), 65535)?)?;
    list_folder(rt, "literals of 65,535 bytes")?;
    fs::write(rt, "literals.txt", "a".repeat(rt.alloc(), 65536)?)?;
    list_folder(rt, "literals of 65,536 bytes")
}

fn grammars(rt: &impl Runtime) -> io::Result<()> {
    case(
        rt,
        "line against the table",
        "   1           0           1           0\n   9           2           0           0\n",
        b"abc",
        b"a",
    )?;
    case(
        rt,
        "repeat body may stand still",
        "   1           0           0           0\n  10           1           0           0\n",
        b"abc",
        b"a",
    )
}

fn texts(rt: &impl Runtime) -> io::Result<()> {
    let longest = "a".repeat(rt.alloc(), 65535)?;
    let too_long = "a".repeat(rt.alloc(), 65536)?;
    case(
        rt,
        "text not UTF-8",
        REPEATED_LETTER,
        b"abc",
        b"\xED\xA0\x80",
    )?;
    case(
        rt,
        "text of 65,535 bytes",
        REPEATED_LETTER,
        b"abc",
        longest.as_bytes(),
    )?;
    case(
        rt,
        "text of 65,536 bytes",
        REPEATED_LETTER,
        b"abc",
        too_long.as_bytes(),
    )
}

// Where two tests refuse, the first one's number counts.
fn order(rt: &impl Runtime) -> io::Result<()> {
    let too_long = "a".repeat(rt.alloc(), 65536)?;
    let wrong_field = "   1           0           1           x\n";
    let no_kind = "   0           0           0           0\n";
    let still =
        "   5           0           0           0\n  10           1           0           0\n";
    case(rt, "1 before 4", " ", b"\xFF", b"a")?;
    case(rt, "2 before 4", wrong_field, b"\xFF", b"a")?;
    case(rt, "4 before 5", no_kind, b"\xFF", b"a")?;
    case(rt, "5 before 7", no_kind, b"abc", too_long.as_bytes())?;
    case(rt, "6 before 7", still, b"abc", too_long.as_bytes())
}

fn failures(rt: &impl Runtime) -> io::Result<()> {
    over(
        rt,
        "a positive",
        "first/sheet.txt",
        "first/literals.txt",
        b"b",
    )?;
    // no rule 7 over `a`, or else rule 8 over `b`
    over(
        rt,
        "a positive and a negative",
        "both_signs.txt",
        "first/literals.txt",
        b"a",
    )?;
    over(
        rt,
        "channels, a comma for the point",
        "channels/sheet.txt",
        "channels/literals.txt",
        b"R-NORD 145600.000 -600000\nR-SUD 145612,500 -600000\n",
    )?;
    over(
        rt,
        "heredoc, a note that is not closed",
        "heredoc/sheet.txt",
        "heredoc/literals.txt",
        b"07:40 north: <<END\nNothing\n08:00 base: END\n",
    )
}

fn depth(rt: &impl Runtime) -> io::Result<()> {
    case(
        rt,
        "a rule that calls itself first",
        "  20           2           0           0\n   8           7           1           0\n",
        b"",
        b"a",
    )?;
    let brackets = "[".repeat(rt.alloc(), 1000)?;
    over(
        rt,
        "json, 1,000 open brackets",
        "json/sheet.txt",
        "json/literals.txt",
        brackets.as_bytes(),
    )
}

// `a`, so many times over, for a sheet that stands in a file of its own.
fn letters(rt: &impl Runtime, name: &str, sheet: &str, count: usize) -> io::Result<()> {
    let text = "a".repeat(rt.alloc(), count)?;
    over(rt, name, sheet, "first/literals.txt", text.as_bytes())
}

fn stops(rt: &impl Runtime) -> io::Result<()> {
    case(
        rt,
        "pop of an empty stack",
        "  15           0           0           0\n",
        b"",
        b"a",
    )?;
    // rule 7 over `a`, as long as `a` is ahead, then `c`
    letters(rt, "1,638 pairs", "pairs.txt", 1638)?;
    letters(rt, "1,639 pairs", "pairs.txt", 1639)?;
    // push of `a`, over and over
    letters(rt, "128 entries", "pushes.txt", 128)?;
    letters(rt, "129 entries", "pushes.txt", 129)?;
    // an optional rule over `a`, so many times one after the other, where no text is left
    letters(rt, "256 attempts", "attempts_256.txt", 0)?;
    letters(rt, "257 attempts", "attempts_257.txt", 0)
}

fn main(rt: HostRuntime) -> io::Result<()> {
    examples(&rt)?;
    sheets(&rt)?;
    long_sheets(&rt)?;
    literals(&rt)?;
    grammars(&rt)?;
    texts(&rt)?;
    order(&rt)?;
    failures(&rt)?;
    depth(&rt)?;
    stops(&rt)
}
