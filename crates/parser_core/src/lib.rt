// The parser core for callers in C and Rust: `run` and `read_sheet` under C's calling convention, with the promises of those two. A
// slice is passed as a pointer and a length. Nothing is asked of the lengths: what is too short or too long is refused by number.
#![tactic(auto)]

ghost use Rattle.std.specs.Prelude.{◌≡◌, length};
ghost use Rattle.engine.specs.Conclude.{run_outcome_of};
ghost use Rattle.reading.specs.Run.{input, Ran};
ghost use Rattle.sheet.specs.Sheet.{SheetRead};
ghost use Rattle.parser_core.specs.Returned.{returned, run_returned};

use engine::state::{Outcome, RunOutcome, run};
use sheet::sheet::read_sheet;

// The engine's `Outcome`, laid out as C does: number, place, count. C goes by position, so the fields have positions and no names:
// `returned` says which is which.
#[repr(C)]
#[derive(Clone, Copy)]
pub struct ParserCoreOutcome(pub u32, pub u32, pub u32);

impl From<Outcome> for ParserCoreOutcome {
    ghost from_gives = { λ o r. returned r ≡ o };

    fn from(o: Outcome) -> Self {
        ParserCoreOutcome(o.number, o.place, o.count)
    }
}

// The engine's `RunOutcome` likewise: number, place, count, and behind them the counted calls. `run_returned` says which is which.
#[repr(C)]
#[derive(Clone, Copy)]
pub struct ParserCoreRunOutcome(pub u32, pub u32, pub u32, pub u64);

impl From<RunOutcome> for ParserCoreRunOutcome {
    ghost from_gives = { λ o r. run_returned r ≡ o };

    fn from(o: RunOutcome) -> Self {
        let answer = o.outcome;
        ParserCoreRunOutcome(answer.number, answer.place, answer.count, o.calls)
    }
}

// Kept: each input and each area on its own, and once more in parser_core_c: the C interface.
#[unsafe(no_mangle)]
pub extern "C" fn parser_core_run<'a>(
    nodes: &[i32],
    literals: &'a [u8],
    text: &'a [u8],
    root: u32,
    depth_limit: u32,
    call_limit: u32,
    tokens: &mut [u32],
    report: &mut [u32],
    scratch: &mut [u32],
) -> ParserCoreRunOutcome
    ensures { Ran (input nodes.now literals.now text.now root depth_limit call_limit tokens.old report.old (length scratch.old))
        (run_outcome_of (run_returned result) tokens.new report.new) scratch.old scratch.new }
{
    run(
        nodes,
        literals,
        text,
        root,
        depth_limit,
        call_limit,
        tokens,
        report,
        scratch,
    )
    .into()
}

#[unsafe(no_mangle)]
pub extern "C" fn parser_core_read_sheet(sheet: &[u8], nodes: &mut [i32]) -> ParserCoreOutcome
    ensures { SheetRead sheet.now nodes.old nodes.new (returned result) }
{
    read_sheet(sheet, nodes).into()
}
