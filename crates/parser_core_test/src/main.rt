// Calls the exported functions as C does, by position: the arguments in the order of rust/parser-core/include/parser_core.h, and the
// outcome's fields by their places. A contract goes by names, so a declaration whose names change places is seen here, and by no proof of
// parser_core.
#![tactic(auto)]

ghost use Rattle.std.specs.Prelude.{length};
ghost use Rattle.engine.specs.Conclude.{run_outcome_of};
ghost use Rattle.reading.specs.Run.{input, Ran};
ghost use Rattle.parser_core.specs.Returned.{run_returned};

use parser_core::{
    ParserCoreOutcome, ParserCoreRunOutcome, parser_core_read_sheet, parser_core_run,
};
use std::{fmt, io};

// An outcome by the places of its fields, as C reads it.
#[derive(Clone, Copy)]
struct ByPosition<T>(T);

impl fmt::Display for ByPosition<ParserCoreOutcome> {
    fn fmt<W: fmt::Write>(&self, f: &mut fmt::Formatter<W>) -> fmt::Result {
        let ByPosition(ParserCoreOutcome(number, place, count)) = *self;
        write!(f, "{number} {place} {count}")
    }
}

impl fmt::Display for ByPosition<ParserCoreRunOutcome> {
    fn fmt<W: fmt::Write>(&self, f: &mut fmt::Formatter<W>) -> fmt::Result {
        let ByPosition(ParserCoreRunOutcome(number, place, count, calls)) = *self;
        write!(f, "{number} {place} {count} {calls}")
    }
}

// The numbers of an area, each behind a space.
#[derive(Clone, Copy)]
struct Numbers<'a>(&'a [u32]);

impl fmt::Display for Numbers<'_> {
    fn fmt<W: fmt::Write>(&self, f: &mut fmt::Formatter<W>) -> fmt::Result {
        for n in self.0 {
            write!(f, " {n}")?;
        }
        Ok(())
    }
}

// The header's order of arguments, with its promise of each for all input.
// Kept: nine parameters, and once more in parser_core_c: each calls another crate's export by position, in C's order of arguments.
fn run_by_position<'a>(
    nodes: &[i32],
    literals: &'a [u8],
    text: &'a [u8],
    root: u32,
    depth_limit: u32,
    call_limit: u32,
    tokens: &mut [u32],
    report: &mut [u32],
    scratch: &mut [u32],
) -> ParserCoreRunOutcome
    ensures { Ran (input nodes.now literals.now text.now root depth_limit call_limit tokens.old report.old (length scratch.old))
        (run_outcome_of (run_returned result) tokens.new report.new) scratch.old scratch.new }
{
    parser_core_run(
        nodes,
        literals,
        text,
        root,
        depth_limit,
        call_limit,
        tokens,
        report,
        scratch,
    )
}

// A run over the literals `abc`: the outcome, the tokens area, and the first numbers of the report.
fn list(
    rt: &impl Print,
    name: &str,
    nodes: &[i32],
    text: &[u8],
    root: u32,
    depth: u32,
    calls: u32,
) -> io::Result<()> {
    let mut tokens = [9u32; 22];
    let mut report = [9u32; 516];
    let mut scratch = [9u32; 4864];
    let o = run_by_position(
        nodes,
        b"abc",
        text,
        root,
        depth,
        calls,
        &mut tokens,
        &mut report,
        &mut scratch,
    );
    println!(rt;
        "{name}: {} |{} |{}",
        ByPosition(o),
        Numbers(&tokens),
        Numbers(&report[..6])
    )
}

fn read(rt: &impl Print, name: &str, sheet: &[u8], nodes: &mut [i32]) -> io::Result<()> {
    let o = parser_core_read_sheet(sheet, nodes);
    println!(rt; "{name}: {}", ByPosition(o))
}

// Rule 7 over `a`, then rule 8 over `bc` or rule 9 over `c`, in a sequence: a rule stands at depth 2.
const SHEET: &[u8] = b"   1           0           1           0
   8           7           1           0
   1           1           2           0
   8           8           3           0
   1           2           1           0
   8           9           5           0
   7           4           6           0
   6           2           7           0
   9           8           0           0
";

// The third line is malformed.
const MALFORMED: &[u8] = b"   1           0           1           0
   5           0           0           0
   8          +7           1           0
";

fn main(rt: HostRuntime) -> io::Result<()> {
    let mut nodes = [5i32; 36];
    read(&rt, "sheet", SHEET, &mut nodes)?;
    read(&rt, "malformed sheet", MALFORMED, &mut nodes)?;
    list(&rt, "parsed", &nodes, b"abc", 9, 2, 0)?;
    list(&rt, "parsed from rule 7", &nodes, b"abc", 2, 1, 0)?;
    list(&rt, "failed", &nodes, b"aa", 9, 2, 0)?;
    list(&rt, "stopped by the call limit", &nodes, b"abc", 9, 2, 1)?;
    list(&rt, "stopped by the depth limit", &nodes, b"abc", 9, 1, 2)?;
    list(&rt, "refused", &nodes, b"abc", 9, 0, 2)?;
    list(&rt, "refused for its root", &nodes, b"abc", 10, 0, 2)
}
