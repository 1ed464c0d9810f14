// Decimal numerals in a lent area.
ghost use Rattle.std.specs.Prelude.{◌≡◌, ◌+◌, ◌≤◌, ◌<◌, length};
ghost use Rattle.std.proofs.lemmas.List.Edits.{sets};
ghost use Rattle.sheet.specs.Numeral.{numeral};

// How many digits a number has.
pub(crate) fn digits(n: u32) -> usize
    ensures { result ≡ length (numeral n) }
{
    n.checked_ilog10().unwrap_or(0) as usize + 1
}

fn digit_byte(d: u32) -> u8
    requires { d < 10 }
    ensures { result ≡ 48 + d }
{
    b'0' + d as u8
}

// The numeral of n, its last digit before `end`; answers where it starts.
// Kept: the library's `write!` into a lent slice says nothing of the bytes that it writes.
pub(crate) fn put_numeral(n: u32, out: &mut [u8], end: usize) -> usize
    requires { (length (numeral n) ≤ end) × (end ≤ length out.old) }
    ensures { (out.new ≡ sets out.old result (numeral n)) × (result + length (numeral n) ≡ end) }
{
    let mut i = end;
    let mut rest = n;
    while 10 <= rest {
        i -= 1;
        out[i] = digit_byte(rest % 10);
        rest = rest / 10;
    }
    i -= 1;
    out[i] = digit_byte(rest);
    i
}
