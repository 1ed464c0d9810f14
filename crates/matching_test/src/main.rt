// Runs the matching layer on RFC 3629's examples and boundaries, and on the cases of document 01's "Position": one line a case, with what
// was answered.
#![tactic(auto)]

use matching::position::{
    BytePosition, Position, Range, at_end, end_of_input, match_insensitive, match_range,
    match_string, skip,
};
use matching::span::{Span, as_bytes};
use matching::utf8::{Character, char_at, is_utf8};
use std::{fmt, io};

// ── UTF-8: the bytes, whether they are UTF-8, and at each byte place the character's value and length, or `-` ──
fn bytes(rt: &impl Print, s: &[u8]) -> io::Result<()> {
    for b in s {
        print!(rt; "{:02x} ", *b)?;
    }
    Ok(())
}

fn character(rt: &impl Print, found: Option<Character>) -> io::Result<()> {
    match found {
        Some(c) => print!(rt; " {:x}/{}", c.value, c.size),
        None => print!(rt; " -"),
    }
}

fn characters(rt: &impl Print, s: &[u8]) -> io::Result<()> {
    for i in 0..s.len() {
        character(rt, char_at(s, i))?;
    }
    Ok(())
}

fn text(rt: &impl Print, s: &[u8]) -> io::Result<()> {
    bytes(rt, s)?;
    let is = if is_utf8(s) { "is" } else { "is not" };
    print!(rt; "{is} UTF-8:")?;
    characters(rt, s)?;
    println!(rt)
}

fn texts(rt: &impl Print, all: &[&[u8]]) -> io::Result<()> {
    for s in all {
        text(rt, *s)?;
    }
    Ok(())
}

// Section 7.
fn rfc_examples(rt: &impl Print) -> io::Result<()> {
    texts(
        rt,
        &[
            b"\x41\xE2\x89\xA2\xCE\x91\x2E",
            b"\xED\x95\x9C\xEA\xB5\xAD\xEC\x96\xB4",
            b"\xE6\x97\xA5\xE6\x9C\xAC\xE8\xAA\x9E",
            b"\xEF\xBB\xBF\xF0\xA3\x8E\xB4",
        ],
    )
}

// The first and the last character of each length, and those beside the surrogates.
fn boundaries(rt: &impl Print) -> io::Result<()> {
    texts(
        rt,
        &[
            b"",
            b"\x00",
            b"\x7F",
            b"\xC2\x80",
            b"\xDF\xBF",
            b"\xE0\xA0\x80",
            b"\xED\x9F\xBF",
            b"\xEE\x80\x80",
            b"\xEF\xBF\xBF",
            b"\xF0\x90\x80\x80",
            b"\xF4\x8F\xBF\xBF",
        ],
    )
}

// Overlong forms, surrogates, above 10FFFF, a tail alone, and characters that are cut short.
fn refused(rt: &impl Print) -> io::Result<()> {
    texts(
        rt,
        &[
            b"\xC0\x80",
            b"\xC1\xBF",
            b"\xE0\x9F\xBF",
            b"\xF0\x8F\xBF\xBF",
            b"\xED\xA0\x80",
            b"\xED\xBF\xBF",
            b"\xF4\x90\x80\x80",
            b"\xF5\x80\x80\x80",
            b"\xFF",
            b"\x80",
            b"\xC2",
            b"\xC2\x41",
            b"\xE2\x89",
            b"\xE2\x89\xC0",
            b"\xF0\xA3\x8E",
            b"\xF0\xA3\x8E\x7F",
        ],
    )
}

// ── Matchers: what is to match, by the functions and by the methods of `Position` ──
#[derive(Clone, Copy)]
enum Matcher<'a> {
    String(&'a str),
    Insensitive(&'a str),
    Range(u32, u32),
    Skip(usize),
}

impl fmt::Display for Matcher<'_> {
    fn fmt<W: fmt::Write>(&self, f: &mut fmt::Formatter<W>) -> fmt::Result {
        match *self {
            Matcher::String(s) => write!(f, "match_string \"{s}\""),
            Matcher::Insensitive(s) => write!(f, "match_insensitive \"{s}\""),
            Matcher::Range(low, high) => write!(f, "match_range {low} to {high}"),
            Matcher::Skip(n) => write!(f, "skip {n}"),
        }
    }
}

impl Matcher<'_> {
    // The position after what matched at `pos`.
    fn after(self, input: &[u8], pos: BytePosition) -> Option<BytePosition> {
        match self {
            Matcher::String(s) => match_string(input, pos, s.as_bytes()),
            Matcher::Insensitive(s) => match_insensitive(input, pos, s.as_bytes()),
            Matcher::Range(low, high) => match_range(input, pos, low, high),
            Matcher::Skip(n) => skip(input, pos, n),
        }
    }

    // Whether it matched, and moved the position.
    fn moves(self, p: &mut Position<'_>) -> bool {
        match self {
            Matcher::String(s) => p.match_string(s.as_bytes()),
            Matcher::Insensitive(s) => p.match_insensitive(s.as_bytes()),
            Matcher::Range(start, end) => p.match_range(Range { start, end }),
            Matcher::Skip(n) => p.skip(n),
        }
    }
}

fn answer(rt: &impl Print, input: &str, at: usize, m: Matcher) -> io::Result<()> {
    print!(rt; "{m} in \"{input}\" at {at}: ")?;
    match m.after(input.as_bytes(), BytePosition(at)) {
        Some(p) => println!(rt; "{}", p.0),
        None => println!(rt; "failed"),
    }
}

fn answers(rt: &impl Print, cases: &[(&str, usize, Matcher)]) -> io::Result<()> {
    for (input, at, m) in cases {
        answer(rt, input, *at, *m)?;
    }
    Ok(())
}

fn end(rt: &impl Print, input: &str, at: usize) -> io::Result<()> {
    let ends = at_end(input.as_bytes(), BytePosition(at));
    println!(rt; "at_end in \"{input}\" at {at}: {ends}")
}

// The bytes of a span, `wanted`: they are as many of the text's as it has.
fn span(rt: &impl Print, input: &str, start: usize, end: usize) -> io::Result<()> {
    print!(rt; "as_bytes {start} to {end} of \"{input}\": \"")?;
    let part = Span {
        start: BytePosition(start),
        end: BytePosition(end),
    };
    rt.write_all(as_bytes(input.as_bytes(), part))?;
    println!(rt; "\"")
}

// One before the end, at the end, one past it.
fn ends(rt: &impl Print) -> io::Result<()> {
    for at in 1..=3 {
        for m in [
            Matcher::String(""),
            Matcher::String("b"),
            Matcher::Insensitive(""),
            Matcher::Insensitive("B"),
            Matcher::Range(0, 0x10FFFF),
            Matcher::Skip(0),
            Matcher::Skip(1),
        ] {
            answer(rt, "ab", at, m)?;
        }
        end(rt, "ab", at)?;
    }
    Ok(())
}

fn strings(rt: &impl Print) -> io::Result<()> {
    answers(
        rt,
        &[
            ("abc", 0, Matcher::String("abc")),
            ("abc", 0, Matcher::String("abd")),
            ("abc", 1, Matcher::String("bcd")),
            ("145.500 kHz", 8, Matcher::Insensitive("KHz")),
            ("AZ", 0, Matcher::Insensitive("az")),
            ("az", 0, Matcher::Insensitive("AZ")),
            ("`", 0, Matcher::Insensitive("@")),
            ("@", 0, Matcher::Insensitive("`")),
            ("{", 0, Matcher::Insensitive("[")),
            ("[", 0, Matcher::Insensitive("{")),
            ("\u{E9}", 0, Matcher::Insensitive("\u{C9}")),
        ],
    )
}

fn ranges(rt: &impl Print) -> io::Result<()> {
    answers(
        rt,
        &[
            ("a", 0, Matcher::Range(97, 98)),
            ("b", 0, Matcher::Range(97, 98)),
            ("c", 0, Matcher::Range(97, 98)),
            ("b", 0, Matcher::Range(98, 97)),
            ("\u{391}", 0, Matcher::Range(0x391, 0x3A9)),
            ("\u{391}", 1, Matcher::Range(0, 0x10FFFF)),
        ],
    )
}

fn skips(rt: &impl Print) -> io::Result<()> {
    let s = "A\u{2262}\u{391}.";
    for n in 1..=5 {
        answer(rt, s, 0, Matcher::Skip(n))?;
    }
    answers(
        rt,
        &[
            (s, 2, Matcher::Skip(0)),
            (s, 2, Matcher::Skip(1)),
            (s, 4, Matcher::Skip(2)),
        ],
    )
}

fn spans(rt: &impl Print) -> io::Result<()> {
    for (start, end) in [(0, 3), (1, 2), (2, 1), (1, 9), (7, 9)] {
        span(rt, "abc", start, end)?;
    }
    Ok(())
}

// ── `Position`, which carries its text: each of its functions ──
// Where a position that was made at the start of a text stands after a match was tried.
fn stands(rt: &impl Print, input: &str, m: Matcher) -> io::Result<()> {
    let mut p = Position::from_start(input.as_bytes());
    let tried = if m.moves(&mut p) {
        "matched, now"
    } else {
        "failed, still"
    };
    println!(rt; "Position {m} in \"{input}\": {tried} at {}", p.pos())
}

// `new` answers a position at an edge of the text, or none.
fn edge(rt: &impl Print, input: &str, at: usize) -> io::Result<()> {
    print!(rt; "Position new in \"{input}\" at {at}: ")?;
    match Position::new(input.as_bytes(), at) {
        Some(p) => println!(rt; "{}", p.pos()),
        None => println!(rt; "none"),
    }
}

// `new_internal` takes any number; `at_end` holds at the text's end alone.
fn tried_end(rt: &impl Print, input: &str, at: usize) -> io::Result<()> {
    let ends = Position::new_internal(input.as_bytes(), BytePosition(at)).at_end();
    println!(rt; "Position at_end in \"{input}\" at {at}: {ends}")
}

// What the run calls at kind 5.
fn tried_end_of_input(rt: &impl Print, input: &str, at: usize) -> io::Result<()> {
    let ends = end_of_input(input.as_bytes(), BytePosition(at));
    println!(rt; "end_of_input in \"{input}\" at {at}: {ends}")
}

fn positions(rt: &impl Print) -> io::Result<()> {
    for (input, m) in [
        ("abcd", Matcher::String("abc")),
        ("abcd", Matcher::String("abd")),
        ("ab", Matcher::String("abc")),
        ("kHz", Matcher::Insensitive("KHZ")),
        ("kHz", Matcher::Insensitive("KHA")),
        ("b", Matcher::Range(97, 98)),
        ("c", Matcher::Range(97, 98)),
        ("\u{391}.", Matcher::Range(0x391, 0x3A9)),
        ("A\u{2262}.", Matcher::Skip(2)),
        ("A\u{2262}.", Matcher::Skip(4)),
        ("", Matcher::Skip(0)),
    ] {
        stands(rt, input, m)?;
    }
    for at in [1, 2, 5, 6] {
        edge(rt, "A\u{2262}.", at)?;
    }
    for at in 1..=3 {
        tried_end(rt, "ab", at)?;
    }
    for at in 1..=3 {
        tried_end_of_input(rt, "ab", at)?;
    }
    Ok(())
}

fn main(rt: HostRuntime) -> io::Result<()> {
    rfc_examples(&rt)?;
    boundaries(&rt)?;
    refused(&rt)?;
    ends(&rt)?;
    strings(&rt)?;
    ranges(&rt)?;
    skips(&rt)?;
    spans(&rt)?;
    positions(&rt)
}
