// The entry of a combinator: pest's `inc_call_check_limit` and `check_stack_limit`.
ghost use Rattle.std.specs.Prelude.{◌≡◌, List, ℕ};
ghost use Rattle.reading.specs.Pest as Pest;
ghost use Rattle.engine.specs.Areas.{view};
ghost use Rattle.engine.specs.Entry.{EnteredBy};

use crate::parser_state::ParserState;
use checks::call_limit_tracker;

// How many more calls may be open below a call that is let in; `depth`: how many before it. The tracker is lent to pest's `enter`.
pub(crate) fn enter(s: &mut ParserState, counted: bool, depth: usize) -> Option<usize>
    ensures { EnteredBy counted depth s.old s.new result }
{
    // Read for the check alone: of a number that is read it knows that it is of 64 bits.
    let _current = s.tracker.current;
    let _limit = s.tracker.limit;
    if call_limit_tracker::enter(&mut s.tracker, counted, depth) {
        Some(depth - 1)
    } else {
        None
    }
}

// Whether a limit cause is set.
pub(crate) fn limit_reached(s: &ParserState) -> bool
    ensures { (tokens scratch : List ℕ) → result ≡ Pest.limit_reached (view tokens scratch s.now) }
{
    s.tracker.reached.is_some()
}
