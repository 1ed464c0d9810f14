// Numbers that are written in bytes.
use std::str;

// A number with one more digit. What is no digit counts as 0, and a number of 100,000 or more takes no more digits.
fn with_digit(n: u32, b: u8) -> u32 {
    match b {
        _ if n >= 100000 => n,
        b'0'..=b'9' => n * 10 + u32::from(b - b'0'),
        _ => n * 10,
    }
}

pub(crate) fn number(digits: &[u8]) -> u32 {
    digits.iter().fold(0, |n, b| with_digit(n, *b))
}

// The number that is written, if one is.
pub(crate) fn written(digits: Option<&[u8]>) -> Option<u32> {
    match digits? {
        [] => None,
        digits => Some(number(digits)),
    }
}

// The number that all the digits say, as a root line is written, up to 2^32 - 1; none where something else stands.
pub(crate) fn exact(digits: Option<&[u8]>) -> Option<u32> {
    str::from_utf8(digits?).ok()?.parse().ok()
}
