// The listing of a sheet, a literal text and a text, with planread's areas and limits.
#![tactic(auto)]

pub mod run_sheet;

ghost use Rattle.files.specs.Listed.{Listed};

use crate::run_sheet::run_sheet;
use sheet::listing::write_listing;

// Document 01, "Sheet and listing". A call limit of 0 is none.
const DEPTH_LIMIT: u32 = 1024;

const CALL_LIMIT: u32 = 0;

// The listing of three texts at the start of the area; answers how many bytes that are. 0, and the area as it was, where the area is too
// short for it; 199,897 bytes hold every listing.
// Kept: a listing has a line at least, so 0 is no listing's size, as with `write_listing`.
pub fn list_texts<'a>(sheet: &[u8], literals: &'a [u8], text: &'a [u8], out: &mut [u8]) -> usize
    ensures { Listed sheet.now literals.now text.now out.old out.new result }
{
    let mut nodes = [0i32; 16384];
    let mut tokens = [0u32; 16380];
    let mut report = [0u32; 515];
    let mut scratch = [0u32; 4864];
    let o = run_sheet(
        sheet,
        literals,
        text,
        DEPTH_LIMIT,
        CALL_LIMIT,
        &mut nodes,
        &mut tokens,
        &mut report,
        &mut scratch,
    );
    write_listing(o.outcome, &tokens, &report, out)
}
