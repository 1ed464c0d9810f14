// What each combinator of pest's parser_state.rs makes of its body's ending. A stop stays a stop.
ghost use Rattle.std.specs.Prelude.{◌≡◌, true, List, ℕ, ◌≤◌, length};
ghost use Rattle.reading.specs.Ending as Model;
ghost use Rattle.reading.specs.Reading.{Setting};
ghost use Rattle.reading.specs.Pest as Pest;
ghost use Rattle.engine.specs.Areas.{view, view_end};
ghost use Rattle.engine.specs.Ends.{EndReady, PushEndReady, RuleOkReady, RuleEndReady, atomic_back, looking, rule_ended};
ghost use Rattle.engine.specs.Rule.{Tracking};
ghost use Rattle.engine.specs.StackReady.{StateReady};

use crate::entry::limit_reached;
use crate::parser_state::ParserState;
use crate::rule::{Begun, close_rule, drop_rule, track_rule};
use crate::stack_state::{checkpoint_ok, restored, stack_push_end};
use matching::position::{BytePosition, TokenIndex};
use reading::parser_state::{Atomicity, Ending, Lookahead};

// On Err, position and stack return, and the queue is cut to its length at the start.
pub(crate) fn sequence_end(
    scratch: &mut [u32],
    s: &mut ParserState,
    position: BytePosition,
    queue: TokenIndex,
    r: Ending,
) -> Ending
    requires { EndReady scratch.old queue.0 s.old r }
    ensures { (tokens : List ℕ) → view_end tokens scratch.new s.new result
        ≡ Pest.sequence_end queue.0 position.0 (view_end tokens scratch.old s.old r) }
{
    match r {
        Ending::Ok => {
            checkpoint_ok(scratch, s);
            Ending::Ok
        }
        Ending::Err => {
            s.position = position;
            s.queue = queue;
            restored(scratch, s);
            Ending::Err
        }
        Ending::Stop(c) => Ending::Stop(c),
    }
}

// On Err, the stack returns.
pub(crate) fn restore_on_err_end(scratch: &mut [u32], s: &mut ParserState, r: Ending) -> Ending
    requires { EndReady scratch.old 0 s.old r }
    ensures { (tokens : List ℕ) → view_end tokens scratch.new s.new result ≡ Pest.restore_on_err_end (view_end tokens scratch.old s.old r) }
{
    match r {
        Ending::Ok => {
            checkpoint_ok(scratch, s);
            Ending::Ok
        }
        Ending::Err => {
            restored(scratch, s);
            Ending::Err
        }
        Ending::Stop(c) => Ending::Stop(c),
    }
}

// An Err is forgiven, unless it comes with a limit cause.
pub(crate) fn forgiven(s: &ParserState) -> Ending
    ensures { (tokens scratch : List ℕ) → view_end tokens scratch s.now result ≡ Pest.optional (Model.Err (view tokens scratch s.now)) }
{
    if limit_reached(s) {
        Ending::Err
    } else {
        Ending::Ok
    }
}

pub(crate) fn optional_end(s: &ParserState, r: Ending) -> Ending
    ensures { (tokens scratch : List ℕ) → view_end tokens scratch s.now result ≡ Pest.optional (view_end tokens scratch s.now r) }
{
    match r {
        Ending::Ok => Ending::Ok,
        Ending::Err => forgiven(s),
        Ending::Stop(c) => Ending::Stop(c),
    }
}

// The answer of a lookahead whose body matched or not, from the state that it returns to.
fn looked(s: &ParserState, good: bool) -> Ending
    ensures { (tokens scratch : List ℕ) → view_end tokens scratch s.now result ≡ looking good (view tokens scratch s.now) }
{
    if limit_reached(s) {
        Ending::Err
    } else if good {
        Ending::Ok
    } else {
        Ending::Err
    }
}

// Back to where a lookahead began: position, lookahead and stack return.
fn back_to(scratch: &mut [u32], s: &mut ParserState, position: BytePosition, lookahead: Lookahead)
    requires { StateReady scratch.old s.old }
    ensures { (tokens : List ℕ) → view tokens scratch.new s.new
        ≡ Pest.restored (Pest.set_lookahead lookahead (Pest.set_position position.0 (view tokens scratch.old s.old))) }
{
    s.position = position;
    s.lookahead = lookahead;
    restored(scratch, s);
}

// It goes back whatever the body answered.
pub(crate) fn lookahead_end(
    scratch: &mut [u32],
    s: &mut ParserState,
    positive: bool,
    lookahead: Lookahead,
    position: BytePosition,
    r: Ending,
) -> Ending
    requires { EndReady scratch.old 0 s.old r }
    ensures { (tokens : List ℕ) → view_end tokens scratch.new s.new result
        ≡ Pest.lookahead_end positive lookahead position.0 (view_end tokens scratch.old s.old r) }
{
    match r {
        Ending::Ok => {
            back_to(scratch, s, position, lookahead);
            looked(s, positive)
        }
        Ending::Err => {
            back_to(scratch, s, position, lookahead);
            looked(s, !positive)
        }
        Ending::Stop(c) => Ending::Stop(c),
    }
}

// The atomicity is the one before.
pub(crate) fn atomic_end(s: &mut ParserState, atomicity: Atomicity, r: Ending) -> Ending
    ensures { (tokens scratch : List ℕ) → view_end tokens scratch s.new result ≡ atomic_back atomicity (view_end tokens scratch s.old r) }
{
    s.atomicity = atomicity;
    r
}

// Kind 14, after its line: "Push adds the span on Ok."
pub(crate) fn push_end(
    scratch: &mut [u32],
    s: &mut ParserState,
    line: u32,
    start: BytePosition,
    r: Ending,
) -> Ending
    requires { PushEndReady scratch.old start s.old r }
    ensures { (text tokens : List ℕ) → view_end tokens scratch.new s.new result
        ≡ Pest.push_end text true line start.0 (view_end tokens scratch.old s.old r) }
{
    match r {
        Ending::Ok => stack_push_end(scratch, s, line, start),
        Ending::Err => Ending::Err,
        Ending::Stop(c) => Ending::Stop(c),
    }
}

// A rule whose body matched is tracked under a negative lookahead, and gets its End.
fn rule_ok(
    tokens: &mut [u32],
    scratch: &mut [u32],
    s: &mut ParserState,
    room: usize,
    b: &Begun,
) -> Ending
    requires { RuleOkReady tokens.old scratch.old room b.now.index.0 s.old }
    ensures { (g : Setting) → g.capacity ≡ room → view_end tokens.new scratch.new s.new result
        ≡ rule_ended g b.now (Model.Ok (view tokens.old scratch.old s.old)) }
{
    let due = s.lookahead == Lookahead::Negative;
    match track_rule(scratch, s, due, b) {
        Ending::Ok => close_rule(tokens, s, room, b),
        Ending::Err => Ending::Err,
        Ending::Stop(c) => Ending::Stop(c),
    }
}

// A rule whose body failed is tracked, unless under a negative lookahead, and its tokens go.
fn rule_err(scratch: &mut [u32], s: &mut ParserState, b: &Begun) -> Ending
    requires { Tracking scratch.old s.old }
    ensures { (g : Setting) (tokens : List ℕ) → view_end tokens scratch.new s.new result
        ≡ rule_ended g b.now (Model.Err (view tokens scratch.old s.old)) }
{
    let due = s.lookahead != Lookahead::Negative;
    match track_rule(scratch, s, due, b) {
        Ending::Ok => {
            drop_rule(s, b.index);
            Ending::Err
        }
        Ending::Err => Ending::Err,
        Ending::Stop(c) => Ending::Stop(c),
    }
}

// Kind 8, after its line, from what it noted before.
pub(crate) fn rule_end(
    tokens: &mut [u32],
    scratch: &mut [u32],
    s: &mut ParserState,
    room: usize,
    b: &Begun,
    r: Ending,
) -> Ending
    requires { RuleEndReady tokens.old scratch.old room b.now.index.0 s.old r }
    ensures { (g : Setting) → g.capacity ≡ room → view_end tokens.new scratch.new s.new result
        ≡ rule_ended g b.now (view_end tokens.old scratch.old s.old r) }
{
    match r {
        Ending::Ok => rule_ok(tokens, scratch, s, room, b),
        Ending::Err => rule_err(scratch, s, b),
        Ending::Stop(c) => Ending::Stop(c),
    }
}
