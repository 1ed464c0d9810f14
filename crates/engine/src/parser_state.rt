// pest's `ParserState`, and its combinators over node lines.
ghost use Rattle.std.specs.Prelude.{◌≡◌, true, false, List, ℕ, eqb, if◌then◌else◌};
ghost use Rattle.reading.specs.Grammar.{kind_at, atomicity_of};
ghost use Rattle.reading.specs.Pest as Pest;
ghost use Rattle.engine.specs.Areas.{view, view_end};
ghost use Rattle.checks.specs.Packed.{unpacked};
ghost use Rattle.engine.specs.Spine.{Fork, below};
ghost use Rattle.engine.specs.Evaluation.{ReadyOf, Line, LineOf, evaluates, opens_call};

use crate::attempts::{Attempts, note};
use crate::endings::{
    atomic_end, forgiven, lookahead_end, optional_end, push_end, restore_on_err_end, rule_end,
    sequence_end,
};
use crate::entry::enter;
use crate::leaves::{Halt, leaf, walk};
use crate::node::{ends_at, line_at};
use crate::rule::{Begun, start_rule, tag_node};
use crate::setting::Setting;
use crate::spine::{descend, ended, goes_right, spine_at};
use crate::stack::Stack;
use crate::stack_state::{checkpoint, moved, stack_match_peek_slice, stack_match_pop, stack_pop};
use checks::call_limit_tracker::CallLimitTracker;
use checks::packed::{packed, unpacked};
use matching::position::{BytePosition, TokenIndex};
use reading::parser_state::{Atomicity, Ending, Lookahead};

// pest's `ParserState`. Like pest's Box it stays in one place through a run, so that no function copies it.
// Kept: counts, and no Vecs: "Vec becomes lent areas", and the elements stand there.
#[derive(Clone, Copy)]
pub(crate) struct ParserState {
    pub position: BytePosition,
    pub queue: TokenIndex,
    pub attempts: Attempts,
    pub stack: Stack,
    pub tracker: CallLimitTracker,
    pub lookahead: Lookahead,
    pub atomicity: Atomicity,
}

impl ParserState {
    // The state at the start of a run. A call limit of 0 is none.
    pub(crate) fn new(call_limit: u32) -> ParserState
        ensures { (tokens scratch : List ℕ) → view tokens scratch result ≡ Pest.new call_limit }
    {
        ParserState {
            position: BytePosition(0),
            queue: TokenIndex(0),
            attempts: Attempts {
                furthest: BytePosition(0),
                positives: 0,
                negatives: 0,
            },
            stack: Stack {
                height: 0,
                popped: 0,
                checkpoints: 0,
            },
            tracker: CallLimitTracker {
                current: 0,
                limit: call_limit as u64,
                reached: None,
            },
            lookahead: Lookahead::None,
            atomicity: Atomicity::NonAtomic,
        }
    }
}

// "b 0 Atomic, 1 CompoundAtomic, 2 NonAtomic"
fn atomicity_of(b: usize) -> Atomicity
    ensures { result ≡ atomicity_of b }
{
    match b {
        0 => Atomicity::Atomic,
        1 => Atomicity::CompoundAtomic,
        _ => Atomicity::NonAtomic,
    }
}

// A lookahead inside another.
fn lookahead_in(positive: bool, l: Lookahead) -> Lookahead
    ensures { result ≡ Pest.lookahead_in positive l }
{
    match (positive, l) {
        (true, Lookahead::Negative) => Lookahead::Negative,
        (true, _) => Lookahead::Positive,
        (false, Lookahead::Negative) => Lookahead::Positive,
        (false, _) => Lookahead::Negative,
    }
}

// The line of the rule that a line of kind 8 or 20 evaluates: "A call is its line."
fn rule_line(kind: usize, a: usize, line: usize) -> usize
    ensures { result ≡ (if eqb kind 20 then a else line) }
{
    if kind == 20 { a } else { line }
}

// A line that opens no call and is no fork.
// Kept: a `match` on the kind's number, as at `leaf`.
fn terminal(
    g: &Setting,
    tokens: &mut [u32],
    scratch: &mut [u32],
    s: &mut ParserState,
    depth: usize,
    line: usize,
) -> Ending
    requires ready { ReadyOf g.now tokens.old scratch.old depth s.old }
    requires line { Line g.now.nodes.now line × (Fork (kind_at g.now.nodes.now line) → ⊥) × (opens_call (kind_at g.now.nodes.now line) ≡ false) }
    ensures { view_end tokens.new scratch.new s.new result ≡ evaluates g.now depth line (view tokens.old scratch.old s.old) }
{
    let n = line_at(g.nodes, line);
    match n.kind {
        15 => stack_pop(g.text, scratch, s, line as u32),
        16 => {
            let e = ends_at(g.nodes, line);
            stack_match_peek_slice(g.text, scratch, s, e.start, e.end, n.c)
        }
        17 => stack_match_pop(g.text, scratch, s, line as u32),
        19 => tag_node(tokens, s, n.a as u32),
        _ => {
            let p = s.position;
            moved(s, leaf(g, line, p))
        }
    }
}

// ── The evaluation: the combinators and `node` call one another. Each call of `node` has less depth left, or a lower line. `s` is the
// state, `depth` how many more calls may be open. ──
// Kept: `tokens`, `scratch` and `s` stand beside each other. A struct that holds a lent `&mut` area would ask of each function that is
// handed it a clause that the area is still the same one. So `ReadyOf` and `Line`, which tie these and the depth together, stand in each
// contract.

// The line. `packed_node` is the one call that the compiler leaves in the cycle, and its number becomes the ending here, at each caller.
#[cycle(evaluation)]
fn node(
    g: &Setting,
    tokens: &mut [u32],
    scratch: &mut [u32],
    s: &mut ParserState,
    depth: usize,
    line: usize,
) -> Ending
    requires ready { ReadyOf g.now tokens.old scratch.old depth s.old }
    requires line { Line g.now.nodes.now line }
    ensures { view_end tokens.new scratch.new s.new result ≡ evaluates g.now depth line (view tokens.old scratch.old s.old) }
{
    unpacked(packed_node(g, tokens, scratch, s, depth, line))
}

// The line, and its ending as a number. Kinds 6 and 7 are walked here: a fork's left side, and then, if it ended as the kind asks, its
// right side as the loop's next line, so that no native stack is taken for it. (Each other function of the cycle but `node` has one
// caller, so that the compiler makes one function of them all: an open call then takes one frame. This one has two, `node` and the run, so
// that it is not made a part of `node`, which answers an enum.)
#[cycle(evaluation)]
pub(crate) fn packed_node(
    g: &Setting,
    tokens: &mut [u32],
    scratch: &mut [u32],
    s: &mut ParserState,
    depth: usize,
    line: usize,
) -> usize
    requires ready { ReadyOf g.now tokens.old scratch.old depth s.old }
    requires line { Line g.now.nodes.now line }
    ensures { view_end tokens.new scratch.new s.new (unpacked result) ≡ evaluates g.now depth line (view tokens.old scratch.old s.old) }
{
    let mut at = line;
    loop {
        let (q, halt) = walk(g, at, s.position);
        s.position = q;
        match halt {
            Halt::Done(good) => return packed(ended(good)),
            Halt::At(fork) => {
                let n = line_at(g.nodes, fork);
                let e = left_side(g, tokens, scratch, s, depth, fork);
                if !goes_right(n.kind, e) {
                    return packed(e);
                }
                at = n.b;
            }
        }
    }
}

// The left side of a fork: from its leftmost line up, each right side whose left side ended as its kind asks. Left sides below left sides
// take no native stack. Another line is its own leftmost line.
#[cycle(evaluation)]
fn left_side(
    g: &Setting,
    tokens: &mut [u32],
    scratch: &mut [u32],
    s: &mut ParserState,
    depth: usize,
    line: usize,
) -> Ending
    requires ready { ReadyOf g.now tokens.old scratch.old depth s.old }
    requires line { Line g.now.nodes.now line }
    ensures { view_end tokens.new scratch.new s.new result ≡ evaluates g.now depth (below g.now.nodes.now line) (view tokens.old scratch.old s.old) }
{
    let low = descend(g.nodes, line);
    let mut e = simple(g, tokens, scratch, s, depth, low.line);
    for k in 1..low.count {
        let l = spine_at(g.nodes, line, low.count - k);
        let n = line_at(g.nodes, l);
        if goes_right(n.kind, e) {
            e = node(g, tokens, scratch, s, depth, n.b);
        }
    }
    e
}

// A line that is no fork.
// Kept: a `match` on the kind's number: document 01's table numbers the kinds, and C hands the numbers in; the arms go on to functions of
// one cycle, which no table of functions can name.
#[cycle(evaluation)]
fn simple(
    g: &Setting,
    tokens: &mut [u32],
    scratch: &mut [u32],
    s: &mut ParserState,
    depth: usize,
    line: usize,
) -> Ending
    requires ready { ReadyOf g.now tokens.old scratch.old depth s.old }
    requires line { Line g.now.nodes.now line × (Fork (kind_at g.now.nodes.now line) → ⊥) }
    ensures { view_end tokens.new scratch.new s.new result ≡ evaluates g.now depth line (view tokens.old scratch.old s.old) }
{
    let n = line_at(g.nodes, line);
    match n.kind {
        8 | 20 => {
            let at = rule_line(n.kind, n.a, line);
            rule(g, tokens, scratch, s, depth, at)
        }
        9 => sequence(g, tokens, scratch, s, depth, line),
        10 => repeat(g, tokens, scratch, s, depth, line),
        11 => optional(g, tokens, scratch, s, depth, line),
        12 => lookahead(g, tokens, scratch, s, depth, line),
        13 => atomic(g, tokens, scratch, s, depth, line),
        14 => stack_push(g, tokens, scratch, s, depth, line),
        18 => restore_on_err(g, tokens, scratch, s, depth, line),
        _ => terminal(g, tokens, scratch, s, depth, line),
    }
}

// pest's `rule`.
#[cycle(evaluation)]
fn rule(
    g: &Setting,
    tokens: &mut [u32],
    scratch: &mut [u32],
    s: &mut ParserState,
    depth: usize,
    line: usize,
) -> Ending
    requires ready { ReadyOf g.now tokens.old scratch.old depth s.old }
    requires line { LineOf g.now 8 line }
    ensures { view_end tokens.new scratch.new s.new result ≡ evaluates g.now depth line (view tokens.old scratch.old s.old) }
{
    let n = line_at(g.nodes, line);
    let Some(deeper) = enter(s, true, depth) else {
        return Ending::Err;
    };
    let begun = Begun {
        line: line as u32,
        rule: n.a as u32,
        position: s.position,
        index: s.queue,
        noted: note(s.attempts, s.position),
    };
    match start_rule(tokens, s, g.room, begun.line) {
        Ending::Ok => {
            let r = node(g, tokens, scratch, s, deeper, n.b);
            rule_end(tokens, scratch, s, g.room, &begun, r)
        }
        Ending::Err => Ending::Err,
        Ending::Stop(c) => Ending::Stop(c),
    }
}

// pest's `sequence`.
#[cycle(evaluation)]
fn sequence(
    g: &Setting,
    tokens: &mut [u32],
    scratch: &mut [u32],
    s: &mut ParserState,
    depth: usize,
    line: usize,
) -> Ending
    requires ready { ReadyOf g.now tokens.old scratch.old depth s.old }
    requires line { LineOf g.now 9 line }
    ensures { view_end tokens.new scratch.new s.new result ≡ evaluates g.now depth line (view tokens.old scratch.old s.old) }
{
    let n = line_at(g.nodes, line);
    let Some(deeper) = enter(s, true, depth) else {
        return Ending::Err;
    };
    let p = s.position;
    let q = s.queue;
    checkpoint(scratch, s);
    let r = node(g, tokens, scratch, s, deeper, n.a);
    sequence_end(scratch, s, p, q, r)
}

// pest's `repeat`. The body moves on Ok, so that the loop ends.
#[cycle(evaluation)]
fn repeat(
    g: &Setting,
    tokens: &mut [u32],
    scratch: &mut [u32],
    s: &mut ParserState,
    depth: usize,
    line: usize,
) -> Ending
    requires ready { ReadyOf g.now tokens.old scratch.old depth s.old }
    requires line { LineOf g.now 10 line }
    ensures { view_end tokens.new scratch.new s.new result ≡ evaluates g.now depth line (view tokens.old scratch.old s.old) }
{
    let n = line_at(g.nodes, line);
    let Some(deeper) = enter(s, true, depth) else {
        return Ending::Err;
    };
    loop {
        match node(g, tokens, scratch, s, deeper, n.a) {
            Ending::Ok => {}
            Ending::Err => {
                return forgiven(s);
            }
            Ending::Stop(c) => {
                return Ending::Stop(c);
            }
        }
    }
}

// pest's `optional`.
#[cycle(evaluation)]
fn optional(
    g: &Setting,
    tokens: &mut [u32],
    scratch: &mut [u32],
    s: &mut ParserState,
    depth: usize,
    line: usize,
) -> Ending
    requires ready { ReadyOf g.now tokens.old scratch.old depth s.old }
    requires line { LineOf g.now 11 line }
    ensures { view_end tokens.new scratch.new s.new result ≡ evaluates g.now depth line (view tokens.old scratch.old s.old) }
{
    let n = line_at(g.nodes, line);
    let Some(deeper) = enter(s, true, depth) else {
        return Ending::Err;
    };
    let r = node(g, tokens, scratch, s, deeper, n.a);
    optional_end(s, r)
}

// pest's `lookahead`.
#[cycle(evaluation)]
fn lookahead(
    g: &Setting,
    tokens: &mut [u32],
    scratch: &mut [u32],
    s: &mut ParserState,
    depth: usize,
    line: usize,
) -> Ending
    requires ready { ReadyOf g.now tokens.old scratch.old depth s.old }
    requires line { LineOf g.now 12 line }
    ensures { view_end tokens.new scratch.new s.new result ≡ evaluates g.now depth line (view tokens.old scratch.old s.old) }
{
    let n = line_at(g.nodes, line);
    let Some(deeper) = enter(s, true, depth) else {
        return Ending::Err;
    };
    let p = s.position;
    let l = s.lookahead;
    let positive = n.b == 1;
    s.lookahead = lookahead_in(positive, l);
    checkpoint(scratch, s);
    let r = node(g, tokens, scratch, s, deeper, n.a);
    lookahead_end(scratch, s, positive, l, p, r)
}

// pest's `atomic`.
#[cycle(evaluation)]
fn atomic(
    g: &Setting,
    tokens: &mut [u32],
    scratch: &mut [u32],
    s: &mut ParserState,
    depth: usize,
    line: usize,
) -> Ending
    requires ready { ReadyOf g.now tokens.old scratch.old depth s.old }
    requires line { LineOf g.now 13 line }
    ensures { view_end tokens.new scratch.new s.new result ≡ evaluates g.now depth line (view tokens.old scratch.old s.old) }
{
    let n = line_at(g.nodes, line);
    let Some(deeper) = enter(s, true, depth) else {
        return Ending::Err;
    };
    let before = s.atomicity;
    s.atomicity = atomicity_of(n.b);
    let r = node(g, tokens, scratch, s, deeper, n.a);
    atomic_end(s, before, r)
}

// pest's `stack_push`.
#[cycle(evaluation)]
fn stack_push(
    g: &Setting,
    tokens: &mut [u32],
    scratch: &mut [u32],
    s: &mut ParserState,
    depth: usize,
    line: usize,
) -> Ending
    requires ready { ReadyOf g.now tokens.old scratch.old depth s.old }
    requires line { LineOf g.now 14 line }
    ensures { view_end tokens.new scratch.new s.new result ≡ evaluates g.now depth line (view tokens.old scratch.old s.old) }
{
    let n = line_at(g.nodes, line);
    let Some(deeper) = enter(s, true, depth) else {
        return Ending::Err;
    };
    let p = s.position;
    let r = node(g, tokens, scratch, s, deeper, n.a);
    push_end(scratch, s, line as u32, p, r)
}

// pest's `restore_on_err`: its entry is not counted.
#[cycle(evaluation)]
fn restore_on_err(
    g: &Setting,
    tokens: &mut [u32],
    scratch: &mut [u32],
    s: &mut ParserState,
    depth: usize,
    line: usize,
) -> Ending
    requires ready { ReadyOf g.now tokens.old scratch.old depth s.old }
    requires line { LineOf g.now 18 line }
    ensures { view_end tokens.new scratch.new s.new result ≡ evaluates g.now depth line (view tokens.old scratch.old s.old) }
{
    let n = line_at(g.nodes, line);
    let Some(deeper) = enter(s, false, depth) else {
        return Ending::Err;
    };
    checkpoint(scratch, s);
    let r = node(g, tokens, scratch, s, deeper, n.a);
    restore_on_err_end(scratch, s, r)
}
