// pest's stack.rs over the scratch area: entries, popped entries and open checkpoints, two numbers each.
ghost use Rattle.std.specs.Prelude.{◌≡◌, ◌+◌, ◌≤◌, ◌<◌, length, option_map};
ghost use Rattle.reading.specs.Pest.{snapshot, clear_snapshot, restore};
ghost use Rattle.reading.specs.Reading.{most_entries, most_debt};
ghost use Rattle.engine.specs.Areas.{span, stack_of, scratch_size};
ghost use Rattle.engine.specs.Pairs.{refilled};
ghost use Rattle.engine.specs.Bounded.{pushed, taken, take_of};
ghost use Rattle.engine.specs.StackReady.{StackReady, OutsideStack, most_checkpoints};

use crate::areas::{ENTRIES_AT, LENGTHS_AT, MOST_DEBT, MOST_ENTRIES, POPPED_AT, pair_at, put_pair};
use matching::position::BytePosition;
use matching::span::Span;

// pest's `Stack` in the scratch area: how many entries, popped entries and open checkpoints stand in their regions.
// Kept: counts, and no Vecs, as in parser_state.rt.
#[derive(Clone, Copy)]
pub struct Stack {
    pub height: usize,
    pub popped: usize,
    pub checkpoints: usize,
}

// Why nothing is popped: there is no entry, or no room to owe it.
#[derive(Clone, Copy)]
pub enum Unpopped {
    Empty,
    Full,
}

// Kept: `StackReady` stands in each contract here (and `StateReady` in stack_state.rt). It ties the counts to the area that they count in,
// which is lent on its own, so that no invariant of the counts could say it.

// None: the stack is full.
pub(crate) fn push(scratch: &mut [u32], s: Stack, start: u32, end: u32) -> Option<Stack>
    requires { StackReady scratch.old s }
    ensures state_after { option_map (stack_of scratch.new) result ≡ pushed (span start end) (stack_of scratch.old s) }
    ensures outside_stack { OutsideStack scratch.old scratch.new }
{
    let h = s.height;
    if h < MOST_ENTRIES {
        put_pair(scratch, ENTRIES_AT, h, (start, end));
        Some(Stack { height: h + 1, ..s })
    } else {
        None
    }
}

// The span that a pair of numbers says.
pub(crate) fn span_of(x: (u32, u32)) -> Span
    ensures { (result.start.0 ≡ x.0) × (result.end.0 ≡ x.1) }
{
    Span {
        start: BytePosition(x.0 as usize),
        end: BytePosition(x.1 as usize),
    }
}

// Where the stack is at its lowest since the innermost checkpoint, the checkpoint comes to owe the entry that goes.
pub(crate) fn pop(scratch: &mut [u32], s: Stack) -> Result<(Stack, Span), Unpopped>
    requires { StackReady scratch.old s }
    ensures state_after { take_of scratch.new result ≡ taken (stack_of scratch.old s) }
    ensures outside_stack { OutsideStack scratch.old scratch.new }
{
    let h = s.height;
    let c = s.checkpoints;
    let p = s.popped;
    if h == 0 {
        return Err(Unpopped::Empty);
    }
    let x = pair_at(scratch, ENTRIES_AT, h - 1);
    let lower = Stack { height: h - 1, ..s };
    if c == 0 {
        return Ok((lower, span_of(x)));
    }
    let top = pair_at(scratch, LENGTHS_AT, c - 1);
    if top.1 as usize != h {
        return Ok((lower, span_of(x)));
    }
    if p == MOST_DEBT {
        return Err(Unpopped::Full);
    }
    put_pair(scratch, LENGTHS_AT, c - 1, (top.0, top.1 - 1));
    put_pair(scratch, POPPED_AT, p, x);
    let owing = Stack {
        popped: p + 1,
        ..lower
    };
    Ok((owing, span_of(x)))
}

pub(crate) fn snapshot(scratch: &mut [u32], s: Stack) -> Stack
    requires { StackReady scratch.old s × (s.checkpoints < most_checkpoints) }
    ensures state_after { stack_of scratch.new result ≡ snapshot (stack_of scratch.old s) }
    ensures outside_stack { OutsideStack scratch.old scratch.new }
{
    let h = s.height;
    let c = s.checkpoints;
    put_pair(scratch, LENGTHS_AT, c, (h as u32, h as u32));
    Stack {
        checkpoints: c + 1,
        ..s
    }
}

// Puts the last `n` of `p` popped entries, the last one first, back at the height `low`.
fn refill(scratch: &mut [u32], low: usize, p: usize, n: usize)
    requires { (n ≤ p) × (p ≤ most_debt) × (low + n ≤ most_entries) × (scratch_size ≤ length scratch.old) }
    ensures { scratch.new ≡ refilled scratch.old low p n }
{
    for i in 0..n {
        let x = pair_at(scratch, POPPED_AT, p - i - 1);
        put_pair(scratch, ENTRIES_AT, low + i, x);
    }
}

// "on dropping, the outer takes the lower of the two lowest heights": it keeps the popped entries down to its own lowest height.
pub(crate) fn clear_snapshot(scratch: &mut [u32], s: Stack) -> Stack
    requires { StackReady scratch.old s }
    ensures state_after { stack_of scratch.new result ≡ clear_snapshot (stack_of scratch.old s) }
    ensures outside_stack { OutsideStack scratch.old scratch.new }
{
    let c = s.checkpoints;
    let p = s.popped;
    if c == 0 {
        return s;
    }
    let (tall, low) = pair_at(scratch, LENGTHS_AT, c - 1);
    let n = (tall - low) as usize;
    if c == 1 {
        return Stack {
            popped: p - n,
            checkpoints: 0,
            ..s
        };
    }
    let (outer, was) = pair_at(scratch, LENGTHS_AT, c - 2);
    let kept = was.saturating_sub(low) as usize;
    let lowest = was.min(low);
    put_pair(scratch, LENGTHS_AT, c - 2, (outer, lowest));
    let from = POPPED_AT + (p - kept) * 2;
    let to = POPPED_AT + (p - n) * 2;
    scratch.copy_within(from..from + kept * 2, to);
    Stack {
        popped: p - n + kept,
        checkpoints: c - 1,
        ..s
    }
}

// What was pushed since the innermost checkpoint goes, and what was popped comes back.
pub(crate) fn restore(scratch: &mut [u32], s: Stack) -> Stack
    requires { StackReady scratch.old s }
    ensures state_after { stack_of scratch.new result ≡ restore (stack_of scratch.old s) }
    ensures outside_stack { OutsideStack scratch.old scratch.new }
{
    let c = s.checkpoints;
    let p = s.popped;
    if c == 0 {
        return Stack { height: 0, ..s };
    }
    let top = pair_at(scratch, LENGTHS_AT, c - 1);
    let tall = top.0 as usize;
    let low = top.1 as usize;
    let n = tall - low;
    refill(scratch, low, p, n);
    Stack {
        height: tall,
        popped: p - n,
        checkpoints: c - 1,
    }
}
