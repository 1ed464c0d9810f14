// The terminals of a grammar that are not the matching crate's own: document 01's kinds 1, 2 and 5.
ghost use Rattle.std.specs.Prelude.{◌≡◌, ◌+◌, ◌≤◌, length, take, drop, if◌then◌else◌};
ghost use Rattle.matching.specs.Position as Position;
ghost use Rattle.reading.specs.Pest as Pest;
ghost use Rattle.engine.specs.StackMatch.{match_of};

use matching::position::{BytePosition, end_of_input, match_insensitive, match_string};

// Kinds 1 and 2: whether `size` bytes from `offset` on of the literal text stand at p, and where they end.
pub(crate) fn match_literal<'a>(
    literals: &'a [u8],
    text: &'a [u8],
    offset: usize,
    size: usize,
    insensitive: bool,
    p: BytePosition,
) -> Option<BytePosition>
    requires { offset + size ≤ length literals.now }
    ensures { (m : Pest.ParserState) → Pest.moved (match_of result) m
        ≡ Pest.moved (if insensitive
        then Position.match_insensitive text.now (take size (drop offset literals.now)) p.0
        else Position.match_string text.now (take size (drop offset literals.now)) p.0) m }
{
    let string = &literals[offset..offset + size];
    if insensitive {
        match_insensitive(text, p, string)
    } else {
        match_string(text, p, string)
    }
}

// Kind 5: a match of no bytes at the end, by the position's own test.
pub(crate) fn match_end(text: &[u8], p: BytePosition) -> Option<BytePosition>
    ensures { match_of result ≡ (if Position.at_end text.now p.0 then Some p.0 else None) }
{
    end_of_input(text, p).then_some(p)
}
