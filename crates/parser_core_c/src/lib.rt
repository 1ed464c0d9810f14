// The parser core as a static library: what C and Rust link. Each export calls the function of crate parser_core that has its name, and
// promises what that one does.
// Kept: the exports stand twice, here and in parser_core, for the C interface: a crate is a library or a static library, not both, and the
// proofs and parser_core_test use them as a library.
#![tactic(auto)]

ghost use Rattle.std.specs.Prelude.{length};
ghost use Rattle.engine.specs.Conclude.{run_outcome_of};
ghost use Rattle.reading.specs.Run.{input, Ran};
ghost use Rattle.sheet.specs.Sheet.{SheetRead};
ghost use Rattle.parser_core.specs.Returned.{returned, run_returned};

use parser_core::{ParserCoreOutcome, ParserCoreRunOutcome};

#[unsafe(no_mangle)]
pub extern "C" fn parser_core_run<'a>(
    nodes: &[i32],
    literals: &'a [u8],
    text: &'a [u8],
    root: u32,
    depth_limit: u32,
    call_limit: u32,
    tokens: &mut [u32],
    report: &mut [u32],
    scratch: &mut [u32],
) -> ParserCoreRunOutcome
    ensures { Ran (input nodes.now literals.now text.now root depth_limit call_limit tokens.old report.old (length scratch.old))
        (run_outcome_of (run_returned result) tokens.new report.new) scratch.old scratch.new }
{
    parser_core::parser_core_run(
        nodes,
        literals,
        text,
        root,
        depth_limit,
        call_limit,
        tokens,
        report,
        scratch,
    )
}

#[unsafe(no_mangle)]
pub extern "C" fn parser_core_read_sheet(sheet: &[u8], nodes: &mut [i32]) -> ParserCoreOutcome
    ensures { SheetRead sheet.now nodes.old nodes.new (returned result) }
{
    parser_core::parser_core_read_sheet(sheet, nodes)
}

// Calls the export as C does, by position: the arguments in the order of rust/parser-core/include/parser_core.h. A contract goes by names,
// so an export whose names change places is refused here.
// Kept: nine parameters, and once more in parser_core_test: C's order of arguments.
fn run_by_position<'a>(
    nodes: &[i32],
    literals: &'a [u8],
    text: &'a [u8],
    root: u32,
    depth_limit: u32,
    call_limit: u32,
    tokens: &mut [u32],
    report: &mut [u32],
    scratch: &mut [u32],
) -> ParserCoreRunOutcome
    ensures { Ran (input nodes.now literals.now text.now root depth_limit call_limit tokens.old report.old (length scratch.old))
        (run_outcome_of (run_returned result) tokens.new report.new) scratch.old scratch.new }
{
    parser_core_run(
        nodes,
        literals,
        text,
        root,
        depth_limit,
        call_limit,
        tokens,
        report,
        scratch,
    )
}
