// The combinators of pest's parser_state.rs over the state's stack: checkpoints, and document 01's kinds 14 to 17.
ghost use Rattle.std.specs.Prelude.{◌≡◌, true, ◌||◌, List, ℕ, ◌≤◌, ◌<◌, eqb, ltb, length, if◌then◌else◌};
ghost use Rattle.reading.specs.Ending.{Ok};
ghost use Rattle.reading.specs.Pest.{checkpoint, checkpoint_ok, restored, moved, push_end, stack_pop, stack_match_peek_slice, stack_match_pop};
ghost use Rattle.engine.specs.Areas.{stack_of, view, view_end};
ghost use Rattle.engine.specs.StackReady.{StackReady, StateReady, PushReady, OutsideStack, most_checkpoints};
ghost use Rattle.engine.specs.StackMatch.{match_of};

use crate::parser_state::ParserState;
use crate::stack::{Unpopped, clear_snapshot, pop, push, restore, snapshot};
use crate::stack_match::{match_pop, match_slice};
use checks::node::{is_top_down, normalize_end, normalize_index};
use matching::position::{BytePosition, match_string};
use matching::span::as_bytes;
use reading::parser_state::{Cause, Ending};

// Kept: `StateReady` in each contract here: stack.rt says why.
pub(crate) fn checkpoint(scratch: &mut [u32], s: &mut ParserState)
    requires { StateReady scratch.old s.old × (s.old.stack.checkpoints < most_checkpoints) }
    ensures state_after { (tokens : List ℕ) → view tokens scratch.new s.new ≡ checkpoint (view tokens scratch.old s.old) }
    ensures outside_stack { OutsideStack scratch.old scratch.new }
{
    s.stack = snapshot(scratch, s.stack);
}

pub(crate) fn checkpoint_ok(scratch: &mut [u32], s: &mut ParserState)
    requires { StateReady scratch.old s.old }
    ensures state_after { (tokens : List ℕ) → view tokens scratch.new s.new ≡ checkpoint_ok (view tokens scratch.old s.old) }
    ensures outside_stack { OutsideStack scratch.old scratch.new }
{
    s.stack = clear_snapshot(scratch, s.stack);
}

pub(crate) fn restored(scratch: &mut [u32], s: &mut ParserState)
    requires { StateReady scratch.old s.old }
    ensures state_after { (tokens : List ℕ) → view tokens scratch.new s.new ≡ restored (view tokens scratch.old s.old) }
    ensures outside_stack { OutsideStack scratch.old scratch.new }
{
    s.stack = restore(scratch, s.stack);
}

// The position after a match, or the same with Err.
pub(crate) fn moved(s: &mut ParserState, m: Option<BytePosition>) -> Ending
    ensures { (tokens scratch : List ℕ) → view_end tokens scratch s.new result ≡ moved (match_of m) (view tokens scratch s.old) }
{
    match m {
        Some(p) => {
            s.position = p;
            Ending::Ok
        }
        None => Ending::Err,
    }
}

// Kind 14, after its line's Ok: the span since `start` is pushed.
pub(crate) fn stack_push_end(
    scratch: &mut [u32],
    s: &mut ParserState,
    line: u32,
    start: BytePosition,
) -> Ending
    requires { PushReady scratch.old start s.old }
    ensures state_after { (text : List ℕ) → (tokens : List ℕ) → view_end tokens scratch.new s.new result
        ≡ push_end text true line start.0 (Ok (view tokens scratch.old s.old)) }
    ensures outside_stack { OutsideStack scratch.old scratch.new }
{
    match push(scratch, s.stack, start.0 as u32, s.position.0 as u32) {
        Some(w) => {
            s.stack = w;
            Ending::Ok
        }
        None => Ending::Stop(Cause::StackFull(line)),
    }
}

// Kind 15: "matches what it pops".
pub(crate) fn stack_pop(text: &[u8], scratch: &mut [u32], s: &mut ParserState, line: u32) -> Ending
    requires { StateReady scratch.old s.old }
    ensures state_after { (tokens : List ℕ) → view_end tokens scratch.new s.new result
        ≡ stack_pop text.now true line (stack_of scratch.old s.old.stack).cache (view tokens scratch.old s.old) }
    ensures outside_stack { OutsideStack scratch.old scratch.new }
{
    let p = s.position;
    match pop(scratch, s.stack) {
        Ok((w, x)) => {
            s.stack = w;
            moved(s, match_string(text, p, as_bytes(text, x)))
        }
        Err(Unpopped::Empty) => Ending::Stop(Cause::EmptyStack(line)),
        Err(Unpopped::Full) => Ending::Stop(Cause::StackFull(line)),
    }
}

// Kind 16, by its fields a, b, c.
pub(crate) fn stack_match_peek_slice(
    text: &[u8],
    scratch: &[u32],
    s: &mut ParserState,
    a: i32,
    b: i32,
    c: usize,
) -> Ending
    requires { StackReady scratch.now s.old.stack }
    ensures { (tokens : List ℕ) → view_end tokens scratch.now s.new result
        ≡ stack_match_peek_slice text.now a (if ltb c 2 then Some b else None) (eqb c 1 || eqb c 3) (view tokens scratch.now s.old) }
{
    let v = s.stack;
    let h = v.height;
    let Some(start) = normalize_index(a, h) else {
        return Ending::Err;
    };
    let Some(end) = normalize_end(b, c, h) else {
        return Ending::Err;
    };
    if end <= start {
        return Ending::Ok;
    }
    let p = s.position;
    let down = is_top_down(c);
    moved(s, match_slice(text, scratch, v, p, start, end, down))
}

// Kind 17.
pub(crate) fn stack_match_pop(
    text: &[u8],
    scratch: &mut [u32],
    s: &mut ParserState,
    line: u32,
) -> Ending
    requires { StateReady scratch.old s.old }
    ensures state_after { (tokens : List ℕ) → view_end tokens scratch.new s.new result
        ≡ stack_match_pop text.now true line (stack_of scratch.old s.old.stack).cache s.old.position.0 (view tokens scratch.old s.old) }
    ensures outside_stack { OutsideStack scratch.old scratch.new }
{
    match match_pop(text, scratch, s.stack, s.position) {
        Some((w, m)) => {
            s.stack = w;
            moved(s, m)
        }
        None => Ending::Stop(Cause::StackFull(line)),
    }
}
