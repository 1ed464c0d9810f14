// What planread prints, as bytes at the start of a lent area. A line has at most 61 bytes: six fields of ten digits and its end.
ghost use Rattle.std.specs.Prelude.{◌≡◌, cond, ◌+◌, ◌-◌, ◌*◌, ◌≤◌, ◌<◌, ltb, length, get_or};
ghost use Rattle.std.proofs.lemmas.List.Edits.{sets};
ghost use Rattle.sheet.specs.Listing.{six, fields, line_text, head_line, token_line, rule_line, later_line, later_count, listing, whole};
ghost use Rattle.sheet.specs.Listing.{Written, ListingWritten};

use crate::numeral::{digits, put_numeral};
use engine::state::Outcome;

// A field is six wide, or as wide as its numeral.
fn width(n: u32) -> usize
    ensures { result ≡ length (six n) }
{
    digits(n).max(6)
}

// One field; answers the place behind it.
fn put_six(n: u32, out: &mut [u8], at: usize) -> usize
    requires { at + length (six n) ≤ length out.old }
    ensures { (out.new ≡ sets out.old at (six n)) × (result ≡ at + length (six n)) }
{
    let end = at + width(n);
    let start = end - digits(n);
    out[at..start].fill(b' ');
    put_numeral(n, out, end);
    end
}

// Whether the fields and the line's end have room.
fn has_room(numbers: &[u32], room: usize) -> bool
    ensures { result ≡ ltb (length (fields numbers.now)) room }
{
    let mut left = room;
    for n in numbers {
        let w = width(*n);
        if left < w {
            return false;
        }
        left -= w;
    }
    0 < left
}

fn put_line(numbers: &[u32], out: &mut [u8]) -> usize
    requires { length (fields numbers.now) < length out.old }
    ensures { Written (line_text numbers.now) out.old out.new result }
{
    let mut at = 0;
    for n in numbers {
        at = put_six(*n, out, at);
    }
    out[at] = b'\n';
    at + 1
}

// A line of fields; nothing, and 0, where the area is too short for it.
// Kept: a line has its end at least, so 0 says that none was written, and callers add up what they get.
fn write_line(numbers: &[u32], out: &mut [u8]) -> usize
    ensures { Written (whole out.old (line_text numbers.now)) out.old out.new result }
{
    if has_room(numbers, out.len()) {
        put_line(numbers, out)
    } else {
        0
    }
}

// A number of an area; 0 past its end.
fn number_at(area: &[u32], i: usize) -> u32
    ensures { result ≡ get_or area.now i 0 }
{
    area.get(i).copied().unwrap_or(0)
}

fn write_head(o: Outcome, out: &mut [u8]) -> usize
    ensures { Written (whole out.old (line_text (head_line o))) out.old out.new result }
{
    let numbers = [o.number, o.place, o.count];
    write_line(&numbers, out)
}

fn write_token(tokens: &[u32], k: u32, out: &mut [u8]) -> usize
    ensures { Written (whole out.old (line_text (token_line tokens.now k))) out.old out.new result }
{
    let at = k as usize * 5;
    let numbers = [
        k,
        number_at(tokens, at),
        number_at(tokens, at + 1),
        number_at(tokens, at + 2),
        number_at(tokens, at + 3),
        number_at(tokens, at + 4),
    ];
    write_line(&numbers, out)
}

fn sign_of(report: &[u32], k: u32) -> u32
    ensures { result ≡ cond (ltb k (get_or report.now 1 0)) 1 2 }
{
    if k < number_at(report, 1) { 1 } else { 2 }
}

fn write_rule(report: &[u32], k: u32, out: &mut [u8]) -> usize
    ensures { Written (whole out.old (line_text (rule_line report.now k))) out.old out.new result }
{
    let numbers = [sign_of(report, k), number_at(report, k as usize + 3)];
    write_line(&numbers, out)
}

// Line k behind the head.
fn write_later(o: Outcome, tokens: &[u32], report: &[u32], k: u32, out: &mut [u8]) -> usize
    ensures { Written (whole out.old (later_line o.number tokens.now report.now k)) out.old out.new result }
{
    if o.number == 0 {
        write_token(tokens, k, out)
    } else {
        write_rule(report, k, out)
    }
}

// How many lines stand behind the head.
fn later_count(o: Outcome) -> u32
    ensures { result ≡ later_count o }
{
    match o.number {
        0 | 10 => o.count,
        _ => 0,
    }
}

// How many bytes the listing has: each line is tried on an area that holds any line.
fn listing_size(o: Outcome, tokens: &[u32], report: &[u32]) -> usize
    ensures { (result ≡ length (listing o tokens.now report.now)) × (result ≤ 61 * (o.count + 1)) }
{
    let lines = later_count(o);
    let mut line = [0u8; 61];
    let mut size = write_head(o, &mut line);
    for k in 0..lines {
        size += write_later(o, tokens, report, k, &mut line);
    }
    size
}

// The listing, in an area that is long enough for it.
fn put_listing(o: Outcome, tokens: &[u32], report: &[u32], out: &mut [u8]) -> usize
    requires { length (listing o tokens.now report.now) ≤ length out.old }
    ensures { Written (listing o tokens.now report.now) out.old out.new result }
{
    let count = later_count(o);
    let mut at = write_head(o, out);
    for k in 0..count {
        at += write_later(o, tokens, report, k, &mut out[at..]);
    }
    at
}

// The listing at the start of the area; answers how many bytes that are. 0, and the area as it was, where the area is too short for it.
// Kept: a listing has a line at least, so 0 is no listing's size, and `&out[..n]` needs no case.
pub fn write_listing(o: Outcome, tokens: &[u32], report: &[u32], out: &mut [u8]) -> usize
    ensures { ListingWritten o tokens.now report.now out.old out.new result }
{
    let size = listing_size(o, tokens, report);
    if out.len() < size {
        return 0;
    }
    put_listing(o, tokens, report, out)
}
