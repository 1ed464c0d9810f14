// A sheet's grammar over a text: the sheet is read first, and the nodes that it gave are run.
ghost use Rattle.files.specs.SheetRun.{SheetRun};

use engine::state::{RunOutcome, run};
use sheet::sheet::read_sheet;

// Document 01's tests and stops in order, 1 to 16; the run's root is the last line. A refused sheet leaves all areas, a refused run
// those of the run; neither counts a call.
// Kept: document 01 lends each area on its own and answers number, place and count, document 02 the counted calls beside them; so does C's
// interface, which these follow.
pub fn run_sheet<'a>(
    sheet: &[u8],
    literals: &'a [u8],
    text: &'a [u8],
    depth_limit: u32,
    call_limit: u32,
    nodes: &mut [i32],
    tokens: &mut [u32],
    report: &mut [u32],
    scratch: &mut [u32],
) -> RunOutcome
    ensures { SheetRun sheet.now nodes.old nodes.new
        (record {
          literals = literals.now;
          text = text.now;
          depth_limit = depth_limit;
          call_limit = call_limit;
          tokens = tokens.old;
          report = report.old;
          scratch = scratch.old;
        })
        (record { answer = result; tokens = tokens.new; report = report.new; scratch = scratch.new }) }
{
    let read = read_sheet(sheet, nodes);
    if read.number != 0 {
        return RunOutcome {
            outcome: read,
            calls: 0,
        };
    }
    let n = read.count as usize * 4;
    run(
        &nodes[..n],
        literals,
        text,
        read.count,
        depth_limit,
        call_limit,
        tokens,
        report,
        scratch,
    )
}
