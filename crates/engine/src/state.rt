// The run: pest's `state` over lent areas, with document 01's refusals and stops.
ghost use Rattle.std.specs.Prelude.{◌≡◌, List, ℕ, ◌≤◌, length};
ghost use Rattle.reading.specs.Pest as Pest;
ghost use Rattle.engine.specs.Areas.{view};
ghost use Rattle.reading.specs.Outcome.{refusal, capacity};
ghost use Rattle.engine.specs.Conclude.{run_outcome_of, refused_with};
ghost use Rattle.reading.specs.Run.{input, Ran};

use crate::conclude::conclude;
use crate::parser_state::{ParserState, packed_node};
use crate::setting::Setting;
use checks::grammar::{Refused, refusal};
use checks::packed::unpacked;

// What a run and a sheet reading return: document 01, "Each returns number, place, count".
// Kept: numbers, and no Result: they are what document 01's table and C's interface give.
#[derive(Clone, Copy)]
pub struct Outcome {
    pub number: u32,
    pub place: u32,
    pub count: u32,
}

// What a run returns: beside its outcome (document 02, request 5) "the counted calls entered, 0 if it never started".
#[derive(Clone, Copy)]
pub struct RunOutcome {
    pub outcome: Outcome,
    pub calls: u64,
}

impl From<Refused> for Outcome {
    ghost from_gives = { λ e r. r ≡ refused_with e };

    fn from(refused: Refused) -> Outcome {
        Outcome {
            number: refused.number(),
            place: refused.place(),
            count: 0,
        }
    }
}

// "Capacity is a fifth of the area, rounded down, at most 65,535."
fn capacity_of(tokens: &[u32]) -> usize
    ensures { result ≡ capacity tokens.now }
{
    (tokens.len() / 5).min(65535)
}

// A run that no test refuses.
// Kept: the parameters are those of `run`.
fn started<'a>(
    nodes: &[i32],
    literals: &'a [u8],
    text: &'a [u8],
    root: u32,
    depth_limit: u32,
    call_limit: u32,
    tokens: &mut [u32],
    report: &mut [u32],
    scratch: &mut [u32],
) -> RunOutcome
    requires { refusal (input nodes.now literals.now text.now root depth_limit call_limit tokens.old report.old (length scratch.old))
        ≡ None }
    ensures { Ran (input nodes.now literals.now text.now root depth_limit call_limit tokens.old report.old (length scratch.old))
        (run_outcome_of result tokens.new report.new) scratch.old scratch.new }
{
    let room = capacity_of(tokens);
    let depth = depth_limit as usize;
    let mut state = ParserState::new(call_limit);
    let setting = Setting {
        nodes,
        literals,
        text,
        room,
    };
    let r = packed_node(&setting, tokens, scratch, &mut state, depth, root as usize);
    RunOutcome {
        outcome: conclude(tokens, scratch, report, &state, unpacked(r)),
        calls: state.tracker.current,
    }
}

// Document 01's run, from the root line that it names (document 02, request 4). A refused one leaves all areas.
// Kept: each input and each area on its own, as C's interface hands them in.
pub fn run<'a>(
    nodes: &[i32],
    literals: &'a [u8],
    text: &'a [u8],
    root: u32,
    depth_limit: u32,
    call_limit: u32,
    tokens: &mut [u32],
    report: &mut [u32],
    scratch: &mut [u32],
) -> RunOutcome
    ensures { Ran (input nodes.now literals.now text.now root depth_limit call_limit tokens.old report.old (length scratch.old))
        (run_outcome_of result tokens.new report.new) scratch.old scratch.new }
{
    match refusal(
        nodes,
        literals,
        text,
        root,
        depth_limit,
        report.len(),
        scratch.len(),
    ) {
        Err(refused) => RunOutcome {
            outcome: Outcome::from(refused),
            calls: 0,
        },
        Ok(()) => started(
            nodes,
            literals,
            text,
            root,
            depth_limit,
            call_limit,
            tokens,
            report,
            scratch,
        ),
    }
}
