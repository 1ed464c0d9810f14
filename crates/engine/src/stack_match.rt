// Matching the text of stack entries, as pest's parser_state.rs does it for document 01's kinds 15 to 17.
ghost use Rattle.std.specs.Prelude.{◌≡◌, true, ℕ, ◌+◌, ◌*◌, ◌≤◌, ◌<◌, length, leb};
ghost use Rattle.matching.specs.Answers.{matched};
ghost use Rattle.reading.specs.Pest.{ParserState, set_stack, as_str, slice, all_match, stack_match_pop};
ghost use Rattle.engine.specs.Areas.{stack_of};
ghost use Rattle.engine.specs.StackReady.{StackReady, OutsideStack};
ghost use Rattle.engine.specs.StackMatch.{entry_at, index_at, match_end};

use crate::areas::{ENTRIES_AT, pair_at};
use crate::stack::{Stack, pop, span_of};
use matching::position::{BytePosition, match_string};
use matching::span::as_bytes;

// The bytes of the entry at an index from the bottom, as a part of the text.
pub(crate) fn entry<'a>(text: &'a [u8], scratch: &[u32], index: usize) -> &'a [u8]
    requires { index * 2 + 2 ≤ length scratch.now }
    ensures { result.now ≡ as_str text.now (entry_at scratch.now index) }
{
    let x = pair_at(scratch, ENTRIES_AT, index);
    as_bytes(text, span_of(x))
}

// The index of the entry that comes at turn k of a slice, where k counts up from `start`.
fn index_at(start: usize, end: usize, k: usize, down: bool) -> usize
    requires { (start ≤ k) × (k < end) }
    ensures { result ≡ index_at start end k down }
{
    if down { end - 1 - (k - start) } else { k }
}

// Matches the entries from `start` to before `end`, in either direction: all, or it fails.
// Kept: two ends and a direction: a struct of them would be made at the one call and taken apart here at once.
pub(crate) fn match_slice(
    text: &[u8],
    scratch: &[u32],
    s: Stack,
    pos: BytePosition,
    start: usize,
    end: usize,
    down: bool,
) -> Option<BytePosition>
    requires { StackReady scratch.now s × (end ≤ s.height) }
    ensures { result ≡ matched (all_match text.now (slice start end down (stack_of scratch.now s).cache) pos.0) }
{
    let mut at = pos;
    for k in start..end {
        let i = index_at(start, end, k, down);
        at = match_string(text, at, entry(text, scratch, i))?;
    }
    Some(at)
}

// Whether n bytes stand at the position `at` of a text of `size` bytes.
fn has_room(size: usize, at: usize, n: usize) -> bool
    ensures { result ≡ leb (at + n) size }
{
    at <= size && n <= size - at
}

// "keeps popping entries until one fails to match; failing, .. popped entries are gone": the stack, and where a match ends.
// None: there is no room to owe an entry.
pub(crate) fn match_pop(
    text: &[u8],
    scratch: &mut [u32],
    s: Stack,
    p: BytePosition,
) -> Option<(Stack, Option<BytePosition>)>
    requires { StackReady scratch.old s }
    ensures state_after { (line : ℕ) → (m : ParserState) → match_end scratch.new line m result
        ≡ stack_match_pop text.now true line (stack_of scratch.old s).cache p.0 (set_stack (stack_of scratch.old s) m) }
    ensures outside_stack { OutsideStack scratch.old scratch.new }
{
    let mut t = s;
    let mut at = p.0;
    // Kept: the loop with its label, and not `starts_with`: the project's scope names this form for "keeps popping".
    let matched = 'entries: loop {
        let h = t.height;
        if h == 0 {
            break Some(BytePosition(at));
        }
        let Ok((u, x)) = pop(scratch, t) else {
            return None;
        };
        t = u;
        let bytes = as_bytes(text, x);
        let n = bytes.len();
        if !has_room(text.len(), at, n) {
            break None;
        }
        for i in 0..n {
            if text[at + i] != bytes[i] {
                break 'entries None;
            }
        }
        at += n;
    };
    Some((t, matched))
}
