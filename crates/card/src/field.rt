// The value in a record's value field. `start` is the place of a field's first byte in the header.
ghost use Rattle.std.specs.Prelude.{◌≡◌, ◌+◌, ◌≤◌, ◌<◌, ◌^◌, length};
ghost use Rattle.card.specs.Value.{signed, digits_value, integer_value, as_value, string_value, value_from};
ghost use Rattle.card.specs.Value.{field_value, field_wide};

use super::{Value, text};

// So many digits fit an `i64`. The 19 of TNULLn fit a `usize`, but not always an `i64`.
const MOST_DIGITS: usize = 18;

const MOST_WIDE_DIGITS: usize = 19;

fn signed(n: usize, minus: bool) -> i128
    ensures { result ≡ signed minus n }
{
    let number = n as i128;
    if minus { -number } else { number }
}

fn digits_value(s: &[u8], most: usize, minus: bool) -> Option<i128>
    requires { most ≤ 19 }
    ensures { result ≡ digits_value most minus s.now }
{
    let n = ascii::leading_digits(s);
    if n > most {
        return None;
    }
    let (digits, rest) = s.split_at(n);
    if !text::may_follow(rest) {
        return None;
    }
    let number = ascii::digits::parse_number(digits)?;
    Some(signed(number, minus))
}

#[tactic(auto, unfolding(crate::specs::Value::integer_value))]
fn integer_value(s: &[u8], most: usize) -> Option<i128>
    requires { most ≤ 19 }
    ensures { result ≡ integer_value most s.now }
{
    let (first, rest) = s.split_first()?;
    match *first {
        b'-' => digits_value(rest, most, true),
        b'+' => digits_value(rest, most, false),
        _ => digits_value(s, most, false),
    }
}

// An integer as a value.
fn as_value(s: &[u8]) -> Option<Value>
    ensures { result ≡ as_value (integer_value 18 s.now) }
{
    let number = integer_value(s, MOST_DIGITS)?;
    Some(Value::Integer(number as i64))
}

fn string_value(s: &[u8], start: usize) -> Option<Value>
    ensures { result ≡ string_value start s.now }
{
    let n = text::closing_quote(s)?;
    if !text::may_follow(&s[n + 1..]) {
        return None;
    }
    let len = ascii::trimmed_len(&s[..n]);
    Some(Value::String { start, len })
}

#[tactic(auto, unfolding(crate::specs::Value::value_from))]
fn value_from(s: &[u8], start: usize) -> Option<Value>
    requires { start + length s.now < 2 ^ 64 }
    ensures { result ≡ value_from start s.now }
{
    let (first, rest) = s.split_first()?;
    match *first {
        b'\'' => string_value(rest, start + 1),
        _ => as_value(s),
    }
}

#[tactic(auto, using(ascii::proofs::Front::front_le, ascii::proofs::Parts::part_from), unfolding(crate::specs::Value::field_value))]
pub fn field_value(f: &[u8], start: usize) -> Option<Value>
    requires { start + length f.now < 2 ^ 64 }
    ensures { result ≡ field_value start f.now }
{
    let n = ascii::leading_spaces(f);
    value_from(&f[n..], start + n)
}

// An integer of 19 digits at most in a value field.
#[tactic(auto, using(ascii::proofs::Front::front_le, ascii::proofs::Parts::part_from))]
pub fn field_wide(f: &[u8]) -> Option<i128>
    ensures { result ≡ field_wide f.now }
{
    integer_value(&f[ascii::leading_spaces(f)..], MOST_WIDE_DIGITS)
}
