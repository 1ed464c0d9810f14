// The leaves of `rule` and `tag_node`: what they do to the state before and after the body is evaluated.
ghost use Rattle.std.specs.Prelude.{◌≡◌, true, List, ℕ, ◌+◌, ◌-◌, ◌*◌, ◌≤◌, length, if◌then◌else◌};
ghost use Rattle.reading.specs.Ending as Model;
ghost use Rattle.reading.specs.Reading.{Setting};
ghost use Rattle.reading.specs.Pest as Pest;
ghost use Rattle.engine.specs.Areas.{Outside, view, view_end, positives_at, lengths_at};
ghost use Rattle.engine.specs.Tokens.{Paired};
ghost use Rattle.engine.specs.Rule.{starting, dropped, Recording, Tracking};

use crate::attempts::{Noted, track};
use crate::parser_state::ParserState;
use crate::queueable_token::{push_end, push_start, set_partner, tag_last};
use matching::position::{BytePosition, TokenIndex};
use reading::parser_state::{Atomicity, Cause, Ending, Lookahead};

// A rule that was begun: its line and its number, and what pest's `rule` notes before its body. `index` is the place of its Start.
#[derive(Clone, Copy)]
pub(crate) struct Begun {
    pub line: u32,
    pub rule: u32,
    pub position: BytePosition,
    pub index: TokenIndex,
    pub noted: Noted,
}

// "A rule is recorded if lookahead is None and atomicity isn't Atomic."
pub(crate) fn produces(s: &ParserState) -> bool
    ensures { (tokens scratch : List ℕ) → result ≡ Pest.produces (view tokens scratch s.now) }
{
    s.lookahead == Lookahead::None && s.atomicity != Atomicity::Atomic
}

// The Start of a rule that is recorded.
pub(crate) fn start_rule(tokens: &mut [u32], s: &mut ParserState, room: usize, line: u32) -> Ending
    requires { Recording tokens.old room s.old }
    ensures state_after { (g : Setting) (scratch : List ℕ) → g.capacity ≡ room →
        view_end tokens.new scratch s.new result ≡ starting g line (view tokens.old scratch s.old) }
    ensures outside { Outside (s.old.queue.0 * 5) (s.old.queue.0 * 5 + 5) tokens.old tokens.new }
{
    let n = s.queue;
    if !produces(s) {
        return Ending::Ok;
    }
    if room <= n.0 {
        return Ending::Stop(Cause::TokensFull(line));
    }
    push_start(tokens, n, s.position);
    s.queue = TokenIndex(n.0 + 1);
    Ending::Ok
}

// `track`, where it is due by how the body ended, and outside Atomic.
pub(crate) fn track_rule(scratch: &mut [u32], s: &mut ParserState, due: bool, b: &Begun) -> Ending
    requires { Tracking scratch.old s.old }
    ensures { ((g : Setting) (tokens : List ℕ) → view_end tokens scratch.new s.new result
        ≡ Pest.tracking g true due b.now.line b.now.rule b.now.position.0 b.now.noted.positives b.now.noted.negatives b.now.noted.total
        (view tokens scratch.old s.old) (λ (t : Pest.ParserState). Model.Ok t))
        × Outside positives_at lengths_at scratch.old scratch.new }
{
    let negative = s.lookahead == Lookahead::Negative;
    if !due || s.atomicity == Atomicity::Atomic {
        return Ending::Ok;
    }
    match track(scratch, s.attempts, b.position, b.rule, b.noted, negative) {
        Some(t) => {
            s.attempts = t;
            Ending::Ok
        }
        None => Ending::Stop(Cause::AttemptsFull(b.line)),
    }
}

// The Start at `index` gets the partner n, if it is one of the n tokens.
fn pair_up(tokens: &mut [u32], index: TokenIndex, n: TokenIndex)
    requires { (n.0 * 5 ≤ length tokens.old) × (n.0 ≤ 65535) }
    ensures { Paired tokens.old index.0 n.0 tokens.new }
{
    if index.0 < n.0 {
        set_partner(tokens, index, n);
    }
}

// The End of a rule that is recorded, and the partner of its Start, which is the token at `index`.
pub(crate) fn close_rule(tokens: &mut [u32], s: &mut ParserState, room: usize, b: &Begun) -> Ending
    requires { Recording tokens.old room s.old × (b.now.index.0 ≤ room) }
    ensures state_after { (g : Setting) (scratch : List ℕ) → g.capacity ≡ room → view_end tokens.new scratch s.new result
        ≡ Pest.close_rule g true b.now.line b.now.rule b.now.index.0 (view tokens.old scratch s.old) }
    ensures outside { Outside 0 (s.old.queue.0 * 5 + 5) tokens.old tokens.new }
{
    let n = s.queue;
    if !produces(s) {
        return Ending::Ok;
    }
    if room <= n.0 {
        return Ending::Stop(Cause::TokensFull(b.line));
    }
    let next = TokenIndex(n.0 + 1);
    pair_up(tokens, b.index, n);
    push_end(tokens, n, b.index, b.rule, s.position);
    s.queue = next;
    Ending::Ok
}

// The queue cut to before the Start of a rule that failed.
pub(crate) fn drop_rule(s: &mut ParserState, index: TokenIndex)
    ensures { (tokens scratch : List ℕ) → view tokens scratch s.new ≡ dropped index.0 (view tokens scratch s.old) }
{
    if produces(s) && index.0 < s.queue.0 {
        s.queue = index;
    }
}

// "under lookahead None it sets the last sibling's tag, if any"
pub(crate) fn tag_node(tokens: &mut [u32], s: &ParserState, tag: u32) -> Ending
    requires { s.now.queue.0 * 5 ≤ length tokens.old }
    ensures state_after { (scratch : List ℕ) → view_end tokens.new scratch s.now result ≡ Pest.tag_node tag (view tokens.old scratch s.now) }
    ensures outside { Outside ((s.now.queue.0 - 1) * 5) (s.now.queue.0 * 5) tokens.old tokens.new }
{
    if s.lookahead == Lookahead::None {
        tag_last(tokens, s.queue, tag);
    }
    Ending::Ok
}
