// pest's queue of tokens in a lent area, five numbers a token. A queue is the area and how many tokens it holds, so `truncate` is
// a smaller number; what stands behind the last token is free until the end of a run.
// Kept: the area and a count beside it, and no Vec: document 01, "Vec becomes lent areas".
ghost use Rattle.std.specs.Prelude.{◌≡◌, ◌+◌, ◌*◌, ◌≤◌, length, take};
ghost use Rattle.reading.specs.Pest.{Start, End};
ghost use Rattle.engine.specs.Areas.{queue_of};
ghost use Rattle.reading.specs.Outcome.{filled, numbers};
ghost use Rattle.reading.specs.Answer.{tokens_of};
ghost use Rattle.engine.specs.Tokens.{put_token, Pushed, Patched, Tagged, Settled, SettledTo};

use matching::position::{BytePosition, TokenIndex};

// What a token's first number says.
const START: u32 = 1;

const END: u32 = 2;

// Writes the five numbers of the token at index i: kind, partner, position, rule, tag.
fn put(tokens: &mut [u32], i: usize, token: [u32; 5])
    requires { i * 5 + 5 ≤ length tokens.old }
    ensures { tokens.new ≡ put_token tokens.old i token }
{
    let at = i * 5;
    tokens[at..at + 5].copy_from_slice(&token);
}

// Pushes a Start whose partner is not known yet, onto a queue of n tokens.
pub(crate) fn push_start(tokens: &mut [u32], n: TokenIndex, p: BytePosition)
    requires { (n.0 * 5 + 5 ≤ length tokens.old) × (p.0 ≤ 65535) }
    ensures { Pushed tokens.old n.0 (Start 0 p.0) tokens.new }
{
    put(tokens, n.0, [START, 0, p.0 as u32, 0, 0]);
}

// Pushes an End without a tag, onto a queue of n tokens.
pub(crate) fn push_end(
    tokens: &mut [u32],
    n: TokenIndex,
    partner: TokenIndex,
    rule: u32,
    p: BytePosition,
)
    requires token_fits { (n.0 * 5 + 5 ≤ length tokens.old) × (p.0 ≤ 65535) }
    requires partner_fits { partner.0 ≤ 4294967295 }
    ensures { Pushed tokens.old n.0 (End partner.0 rule 0 p.0) tokens.new }
{
    put(tokens, n.0, [END, partner.0 as u32, p.0 as u32, rule, 0]);
}

// `*end_token_index = new_index`, at a Start; an End is left alone.
pub(crate) fn set_partner(tokens: &mut [u32], index: TokenIndex, partner: TokenIndex)
    requires { (index.0 * 5 + 5 ≤ length tokens.old) × (partner.0 ≤ 4294967295) }
    ensures { Patched tokens.old index.0 partner.0 tokens.new }
{
    let at = index.0 * 5;
    if tokens[at] == START {
        tokens[at + 1] = partner.0 as u32;
    }
}

// Sets the tag of the last of n tokens, if that is an End.
pub(crate) fn tag_last(tokens: &mut [u32], n: TokenIndex, tag: u32)
    requires { n.0 * 5 ≤ length tokens.old }
    ensures { Tagged tokens.old n.0 tag tokens.new }
{
    if n.0 == 0 {
        return;
    }
    let last = (n.0 - 1) * 5;
    if tokens[last] != START {
        tokens[last + 4] = tag;
    }
}

// What stands before `from` is kept, and the rest of the area is zeroed.
pub(crate) fn zero_from(area: &mut [u32], from: usize)
    ensures { area.new ≡ filled (length area.old) (take from area.old) }
{
    if from < area.len() {
        area[from..].fill(0);
    }
}

// The numbers of a token that the queue does not speak of: a Start's rule and tag, and the kind of an End.
fn settle_at(tokens: &mut [u32], i: usize)
    requires { i * 5 + 5 ≤ length tokens.old }
    ensures { Settled tokens.old i tokens.new }
{
    let at = i * 5;
    if tokens[at] == START {
        tokens[at + 3] = 0;
        tokens[at + 4] = 0;
    } else {
        tokens[at] = END;
    }
}

// The same for the first n tokens.
// Kept: by the index, and no `chunks_exact_mut`, which does not say what the area then holds.
fn settle(tokens: &mut [u32], n: usize)
    requires { n * 5 ≤ length tokens.old }
    ensures { SettledTo n n tokens.old tokens.new }
{
    for i in 0..n {
        settle_at(tokens, i);
    }
}

// "tokens, then zeros": the area at the end of a run that gave 0 with n tokens, whatever stood in it before the run.
pub(crate) fn write_tokens(tokens: &mut [u32], n: TokenIndex)
    requires { n.0 * 5 ≤ length tokens.old }
    ensures { tokens.new ≡ filled (length tokens.old) (numbers (tokens_of (queue_of tokens.old n.0))) }
{
    settle(tokens, n.0);
    zero_from(tokens, n.0 * 5);
}
