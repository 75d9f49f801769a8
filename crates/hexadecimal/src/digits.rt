ghost use Rattle.std.specs.Prelude.{◌≡◌, ◌+◌, ◌<◌, ◌≤◌, ◌^◌, length};
ghost use Rattle.subdivision.specs.Formula.{holds};
ghost use Rattle.frames.specs.Digits.{is_digit, digit_value, number};
ghost use Rattle.frames.specs.Lines.{is_hexadecimal};

use numbers::words::entry_or;

// Whether a byte is a lower-case hexadecimal digit.
fn is_digit(b: u8) -> bool
    ensures { result ≡ holds (is_digit b) }
{
    matches!(b, b'0'..=b'9' | b'a'..=b'f')
}

// The value of a digit; of a byte that is none, some number below 16.
fn digit_value(b: u8) -> u32
    ensures { (result ≡ digit_value b) × (result < 16) }
{
    let code = u32::from(b);
    if b <= b'9' {
        code % 16
    } else {
        (code + 9) % 16
    }
}

// The number that so many digits from a place on make, the highest first. Past the page's end stands 0.
pub fn number(page: &[u8], at: usize, count: usize) -> u32
    requires count_bound { at + count < 2 ^ 64 }
    requires count_bound_2 { count ≤ 8 }
    ensures { result ≡ number page.now at count }
{
    let mut value = 0;
    for i in 0..count {
        value = 16 * value + digit_value(entry_or(page, at + i, 0));
    }
    value
}

// Whether the bytes from a place to another are hexadecimal digits.
pub fn hexadecimal(page: &[u8], at: usize, end: usize) -> bool
    requires { (at ≤ end) × (end ≤ length page.now) }
    ensures { result ≡ holds (is_hexadecimal page.now at end) }
{
    page[at..end].iter().all(|b| is_digit(*b))
}
