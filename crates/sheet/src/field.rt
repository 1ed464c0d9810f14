// A decimal field, right-justified by spaces.
ghost use Rattle.std.specs.Prelude.{◌≡◌, ◌≤◌, Some, length};
ghost use Rattle.sheet.specs.Field.{behind_spaces, digit, decimal, natural, positive, negative, signed, field};

// What stands behind the spaces in front.
fn behind_spaces(f: &[u8]) -> &[u8]
    ensures value { result.now ≡ behind_spaces f.now }
    ensures len { length result.now ≤ length f.now }
{
    let mut s = f;
    while let [b' ', rest @ ..] = s {
        s = rest;
    }
    s
}

fn digit(b: u8) -> Option<u64>
    ensures { result ≡ digit b }
{
    match b {
        b'0'..=b'9' => Some((b - b'0') as u64),
        _ => None,
    }
}

// Digits alone. Twelve columns hold no more than 64 bits do.
// Kept: that bound, here, in `natural` and in `signed`: checked sums would give a second answer to what the definition answers as a number.
fn decimal(s: &[u8]) -> Option<u64>
    requires { length s.now ≤ 12 }
    ensures { result ≡ decimal 0 s.now }
{
    let mut n: u64 = 0;
    for b in s {
        n = n * 10 + digit(*b)?;
    }
    Some(n)
}

// One digit or more, with no zero in front of others.
fn natural(s: &[u8]) -> Option<u64>
    requires { length s.now ≤ 12 }
    ensures { result ≡ natural s.now }
{
    match s {
        [] => None,
        [b'0', _, ..] => None,
        _ => decimal(s),
    }
}

fn positive(n: u64) -> Option<i32>
    ensures { result ≡ positive (Some n) }
{
    i32::try_from(n).ok()
}

fn negative(n: u64) -> Option<i32>
    ensures { result ≡ negative (Some n) }
{
    if n == 0 {
        return None;
    }
    // -n fits where n does not: -1 - (n - 1).
    let less = i32::try_from(n - 1).ok()?;
    Some(-1 - less)
}

fn signed(s: &[u8]) -> Option<i32>
    requires { length s.now ≤ 12 }
    ensures { result ≡ signed s.now }
{
    match s {
        [b'-', digits @ ..] => negative(natural(digits)?),
        _ => positive(natural(s)?),
    }
}

pub(crate) fn read_field(f: &[u8]) -> Option<i32>
    requires { length f.now ≤ 12 }
    ensures { result ≡ field f.now }
{
    signed(behind_spaces(f))
}
