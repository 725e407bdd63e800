// Numbers as text: the number that a text is, and the decimal digits of a number in a lent buffer.
ghost use Rattle.std.specs.Prelude.{◌≡◌, ◌&&◌, cond, ◌+◌, ◌-◌, ◌*◌, ◌^◌, ltb};
ghost use Rattle.ascii.specs.Text.{digit};
ghost use Rattle.ascii.specs.Number.{read_on, number, decimal_text};
ghost use Rattle.ascii.specs.Buffer.{written, place_after};

use super::buffer;
use itoa::Buffer;

// The number with one digit more, where the byte is a digit and the number is still below 2^64.
fn with_digit(n: usize, byte: u8) -> Option<usize>
    ensures { result ≡ cond (digit byte && ltb (n * 10 + (byte - 48)) (2 ^ 64)) (Some (n * 10 + (byte - 48))) None }
{
    if !byte.is_ascii_digit() {
        return None;
    }
    n.checked_mul(10)?.checked_add((byte - b'0') as usize)
}

// The number n with the digits of a text after it.
pub fn read_on(n: usize, text: &[u8]) -> Option<usize>
    ensures { result ≡ read_on n text.now }
{
    let mut number = n;
    for byte in text {
        number = with_digit(number, *byte)?;
    }
    Some(number)
}

// The number that a text is.
#[tactic(auto, using(crate::proofs::Reading::number_none, crate::proofs::Reading::number_some))]
pub fn parse_number(text: &[u8]) -> Option<usize>
    ensures { result ≡ number text.now }
{
    if text.is_empty() {
        return None;
    }
    read_on(0, text)
}

// The decimal digits of a number. They stand in the buffer that is lent.
pub fn decimal(n: u64, digits: &mut Buffer) -> &[u8]
    ensures { result.now ≡ decimal_text n }
{
    digits.format(n).as_bytes()
}

// The decimal digits of a number, as `buffer::put` puts a text.
pub fn put_decimal(out: &mut [u8], at: usize, n: u64) -> usize
    ensures place { result ≡ place_after out.old at (decimal_text n) }
    ensures buffer { out.new ≡ written out.old at (decimal_text n) }
{
    let mut digits = Buffer::new();
    buffer::put(out, at, decimal(n, &mut digits))
}
