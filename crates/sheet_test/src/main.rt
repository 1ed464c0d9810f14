// Runs read_sheet on good and broken sheets, and writes a line for each: its name, number, place and count, and the node area; then
// listings, and run_sheet with the limits and areas that planread never has.
#![tactic(auto)]

ghost use Rattle.std.specs.Prelude.{◌≤◌, length};

use engine::state::{Outcome, RunOutcome};
use files::run_sheet::run_sheet;
use sheet::listing::write_listing;
use sheet::sheet::read_sheet;
use std::{fmt, io};

// An outcome's number, place and count.
#[derive(Clone, Copy)]
struct Answer(Outcome);

impl fmt::Display for Answer {
    fn fmt<W: fmt::Write>(&self, f: &mut fmt::Formatter<W>) -> fmt::Result {
        let Outcome {
            number,
            place,
            count,
        } = self.0;
        write!(f, "{number} {place} {count}")
    }
}

// The numbers of a node area, each behind a space.
// Kept: parser_core_test prints its areas so too. Programs share no code but a library's, and a crate for this loop would be no plainer.
#[derive(Clone, Copy)]
struct Numbers<'a>(&'a [i32]);

impl fmt::Display for Numbers<'_> {
    fn fmt<W: fmt::Write>(&self, f: &mut fmt::Formatter<W>) -> fmt::Result {
        for n in self.0 {
            write!(f, " {n}")?;
        }
        Ok(())
    }
}

// A sheet for a node area of some fives: the outcome and the whole area, on a line.
fn one(rt: &impl Print, name: &str, sheet: &[u8], nodes: &mut [i32]) -> io::Result<()> {
    let o = read_sheet(sheet, nodes);
    println!(rt; "{name}: {}{}", Answer(o), Numbers(nodes))
}

// Sheets for a node area of five numbers: one node, and one number behind.
fn each(rt: &impl Print, cases: &[(&str, &str)]) -> io::Result<()> {
    for (name, sheet) in cases {
        one(rt, name, sheet.as_bytes(), &mut [5; 5])?;
    }
    Ok(())
}

// Document 01's example, for a node area with two numbers behind.
fn example(rt: &impl Print) -> io::Result<()> {
    let lines = [
        *b"   1           0           1           0\n",
        *b"   8           7           1           0\n",
        *b"  19           3           0           0\n",
        *b"   6           2           3           0\n",
    ];
    one(rt, "example", lines.as_flattened(), &mut [5; 18])
}

fn one_short(rt: &impl Print) -> io::Result<()> {
    let line = b"   1           0           1           0\n";
    one(rt, "one number short", line, &mut [5; 3])
}

// 41 lines of 40 bytes: a length that 41 divides.
fn forty(rt: &impl Print) -> io::Result<()> {
    let lines = [*b"  1           0           1           0\n"; 41];
    one(
        rt,
        "41 lines of 40 bytes",
        lines.as_flattened(),
        &mut [5; 5],
    )
}

// A sheet of many lines, for an area of fives: its first node, and its numbers from `last` on.
fn long(
    rt: &impl Print,
    name: &str,
    lines: &[[u8; 41]],
    nodes: &mut [i32],
    last: usize,
) -> io::Result<()>
    requires node { 4 ≤ length nodes.old }
    requires rest { last ≤ length nodes.old }
{
    let o = read_sheet(lines.as_flattened(), nodes);
    let nodes = &nodes[..];
    println!(rt;
        "{name}: {}{}{}",
        Answer(o),
        Numbers(&nodes[..4]),
        Numbers(&nodes[last..])
    )
}

// As many lines as are taken, with a number behind their nodes, and one line more.
fn longest(rt: &impl Print) -> io::Result<()> {
    let line = *b"  -6           2           3           0\n";
    long(rt, "4,096 lines", &[line; 4096], &mut [5; 16385], 16380)?;
    long(rt, "4,097 lines", &[line; 4097], &mut [5; 16388], 16384)
}

// Not lines of 41 bytes, or not ended.
fn broken(rt: &impl Print) -> io::Result<()> {
    let cases = [
        ("empty", ""),
        (
            "40 bytes a line",
            "  1           0           1           0\n  1           0           1           0\n",
        ),
        (
            "42 bytes a line",
            "    1           0           1           0\n    1           0           1           0\n",
        ),
        (
            "no last newline",
            "   1           0           1           0\n   1           0           1           0",
        ),
        (
            "space for the last newline",
            "   1           0           1           0\n   1           0           1           0 ",
        ),
        (
            "space for the first newline",
            "   1           0           1           0    1           0           1           0\n",
        ),
    ];
    each(rt, &cases)
}

// A field that is no number, by its sign or its zeros.
fn digits(rt: &impl Print) -> io::Result<()> {
    let cases = [
        ("tab", "   1          \t0           1           0\n"),
        ("plus sign", "   1          +7           1           0\n"),
        ("leading zero", "   1          07           1           0\n"),
        ("minus zero", "   1          -0           1           0\n"),
        (
            "minus leading zero",
            "   1         -07           1           0\n",
        ),
        ("two minus", "   1         --7           1           0\n"),
        ("minus behind", "   1          7-           1           0\n"),
    ];
    each(rt, &cases)
}

// A field that is no number, by its minus, its spaces or a letter.
fn minus_and_spaces(rt: &impl Print) -> io::Result<()> {
    let cases = [
        ("minus alone", "   1           -           1           0\n"),
        (
            "space behind minus",
            "   1         - 7           1           0\n",
        ),
        (
            "space behind digits",
            "   1          7            1           0\n",
        ),
        (
            "space between digits",
            "   1         7 7           1           0\n",
        ),
        ("blank field", "   1                       1           0\n"),
        (
            "newline in a field",
            "   1          \n0           1           0\n",
        ),
        ("letter", "   1           0           1           x\n"),
    ];
    each(rt, &cases)
}

// The least and the largest of a field, and those next to them.
fn ranges(rt: &impl Print) -> io::Result<()> {
    let cases = [
        ("zero", "   0           0           0           0\n"),
        ("four columns", "9999           0           0           0\n"),
        (
            "four columns, minus",
            "-999           0           0           0\n",
        ),
        ("largest", "   1  2147483647           0           0\n"),
        (
            "one over the largest",
            "   1  2147483648           0           0\n",
        ),
        ("least", "   1           0 -2147483648           0\n"),
        (
            "one under the least",
            "   1           0 -2147483649           0\n",
        ),
        (
            "twelve digits",
            "   1           0           0999999999999\n",
        ),
    ];
    each(rt, &cases)
}

// Which of two refusals it is.
fn order(rt: &impl Print) -> io::Result<()> {
    let lines = [
        *b"   1           0           1           0\n",
        *b"   1          +1           0           0\n",
        *b"   x           0           0           0\n",
    ];
    one(
        rt,
        "second line of three",
        lines.as_flattened(),
        &mut [5; 5],
    )?;
    let cases = [
        (
            "broken behind malformed",
            "   1          +1           0           0\n   1           0           1           0 ",
        ),
        (
            "malformed and no room",
            "   1           0           1           0\n   1          +1           0           0\n",
        ),
        (
            "no room for the second",
            "   1           0           1           0\n   1           0           1           0\n",
        ),
    ];
    each(rt, &cases)
}

// A listing, as far as the area holds it whole.
fn list(
    rt: &impl Print,
    name: &str,
    o: Outcome,
    tokens: &[u32],
    report: &[u32],
    out: &mut [u8],
) -> io::Result<()> {
    println!(rt; "{name}:")?;
    let n = write_listing(o, tokens, report, out);
    rt.write_all(&out[..n])
}

// Document 01's example in an area of just its size, a report of two positives and a negative, a stop, numbers of more than six digits
// after a number that lists no lines, and the example in an area that is one byte too short.
fn listings(rt: &impl Print) -> io::Result<()> {
    let mut out = [0u8; 93];
    let none = [0u32; 1];
    let tokens = [1u32, 1, 0, 0, 0, 2, 0, 1, 7, 3];
    let parsed = Outcome {
        number: 0,
        place: 0,
        count: 2,
    };
    list(rt, "parsed", parsed, &tokens, &none, &mut out)?;
    let report = [4u32, 2, 1, 7, 12, 7];
    let failed = Outcome {
        number: 10,
        place: 4,
        count: 3,
    };
    list(rt, "failed", failed, &none, &report, &mut out)?;
    let stopped = Outcome {
        number: 13,
        place: 3,
        count: 0,
    };
    list(rt, "stopped", stopped, &tokens, &report, &mut out)?;
    let large = Outcome {
        number: 999999,
        place: 1000000,
        count: 4294967295,
    };
    list(rt, "wide", large, &tokens, &report, &mut out)?;
    let mut short = [0u8; 92];
    list(rt, "area too short", parsed, &tokens, &report, &mut short)
}

#[derive(Clone, Copy)]
struct Limits {
    depth: u32,
    calls: u32,
}

// Rule 7 over a sequence over `a`, through run_sheet: the outcome, behind a semicolon the counted calls, and the node area.
fn limited(
    rt: &impl Print,
    name: &str,
    limits: Limits,
    nodes: &mut [i32],
    report: &mut [u32],
    scratch: &mut [u32],
) -> io::Result<()> {
    let lines = [
        *b"   1           0           1           0\n",
        *b"   9           1           0           0\n",
        *b"   8           7           2           0\n",
    ];
    let RunOutcome { outcome, calls } = run_sheet(
        lines.as_flattened(),
        b"abc",
        b"a",
        limits.depth,
        limits.calls,
        nodes,
        &mut [9; 10],
        report,
        scratch,
    );
    println!(rt; "{name}: {}; {calls} |{}", Answer(outcome), Numbers(nodes))
}

// In areas of which one is too short.
fn short_areas(rt: &impl Print) -> io::Result<()> {
    let limits = Limits { depth: 0, calls: 0 };
    limited(
        rt,
        "run, nodes short",
        limits,
        &mut [5; 11],
        &mut [9; 515],
        &mut [9; 4864],
    )?;
    let limits = Limits { depth: 2, calls: 0 };
    limited(
        rt,
        "run, report short",
        limits,
        &mut [5; 13],
        &mut [9; 514],
        &mut [9; 4864],
    )?;
    limited(
        rt,
        "run, scratch short",
        limits,
        &mut [5; 13],
        &mut [9; 515],
        &mut [9; 4863],
    )
}

// In areas that are as long as they must be.
fn at_limits(rt: &impl Print) -> io::Result<()> {
    for (name, depth, calls) in [
        ("run, depth 0", 0, 0),
        ("run, depth 1", 1, 0),
        ("run, depth 2", 2, 0),
        ("run, depth 1,025", 1025, 0),
        ("run, call limit 1", 2, 1),
        ("run, call limit 2", 2, 2),
    ] {
        let limits = Limits { depth, calls };
        limited(
            rt,
            name,
            limits,
            &mut [5; 13],
            &mut [9; 515],
            &mut [9; 4864],
        )?;
    }
    Ok(())
}

fn main(rt: HostRuntime) -> io::Result<()> {
    example(&rt)?;
    broken(&rt)?;
    digits(&rt)?;
    minus_and_spaces(&rt)?;
    ranges(&rt)?;
    order(&rt)?;
    one_short(&rt)?;
    forty(&rt)?;
    longest(&rt)?;
    listings(&rt)?;
    short_areas(&rt)?;
    at_limits(&rt)
}
