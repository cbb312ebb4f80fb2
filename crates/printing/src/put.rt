// Text stored at a place of the lent bytes: each function answers the place after it, or the place itself where there is no room. (Bytes and place stay
// two parameters, and are no `Display`, which wants a writer: `put_text_determined` and its kin speak of both, and of the place that is answered.)
ghost use Rattle.std.specs.Prelude.{◌≡◌, ◌<◌, length};
ghost use Rattle.numbers.specs.Number.{pattern_of};
ghost use Rattle.printing.specs.Text as text;
ghost use Rattle.printing.specs.Text.{decimal, hexadecimal, pattern};
ghost use Rattle.printing.specs.Put.{PutIfRoom, Room, Put, decimal_limit, pattern_limit};

use crate::room::has_room;

pub(crate) const DECIMAL_LIMIT: usize = 20;

const PATTERN_LIMIT: usize = 16;

// 0 to 9, then A to F.
fn digit(d: usize) -> u8
    requires { d < 16 }
    ensures { result ≡ text.digit d }
{
    if d < 10 {
        return b'0' + d as u8;
    }
    b'A' - 10 + d as u8
}

pub fn put_text(out: &mut [u8], at: usize, text: &[u8]) -> usize
    ensures { PutIfRoom (length text.now) out.old out.new at result text.now }
{
    if !has_room(out.len(), at, text.len(), 0) {
        return at;
    }
    let end = at + text.len();
    out[at..end].copy_from_slice(text);
    end
}

fn lay_decimal(out: &mut [u8], at: usize, n: usize) -> usize
    requires { Room out.old at (decimal n) }
    ensures { Put out.old out.new at result (decimal n) }
{
    if n < 10 {
        out[at] = digit(n);
        return at + 1;
    }
    let last = lay_decimal(out, at, n / 10);
    out[last] = digit(n % 10);
    last + 1
}

// The digits of a number.
pub fn put_decimal(out: &mut [u8], at: usize, n: usize) -> usize
    ensures { PutIfRoom decimal_limit out.old out.new at result (decimal n) }
{
    if !has_room(out.len(), at, 0, DECIMAL_LIMIT) {
        return at;
    }
    lay_decimal(out, at, n)
}

fn lay_hexadecimal(out: &mut [u8], at: usize, digits: usize, n: u64) -> usize
    requires { Room out.old at (hexadecimal digits n) }
    ensures { Put out.old out.new at result (hexadecimal digits n) }
{
    if digits == 0 {
        return at;
    }
    let last = lay_hexadecimal(out, at, digits - 1, n / 16);
    out[last] = digit((n % 16) as usize);
    last + 1
}

// The 16 digits of a number's pattern.
pub fn put_pattern(out: &mut [u8], at: usize, number: f64) -> usize
    ensures { PutIfRoom pattern_limit out.old out.new at result (pattern (pattern_of number)) }
{
    if !has_room(out.len(), at, 0, PATTERN_LIMIT) {
        return at;
    }
    lay_hexadecimal(out, at, PATTERN_LIMIT, numbers::pattern_of(number))
}
