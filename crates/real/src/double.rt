// The double nearest to a number, within the limits. `digits` is the number without its point, `places` how many
// digits stand after that.
ghost use Rattle.std.specs.Prelude.{◌≡◌, ◌<◌, ◌^◌, pos, ◌-ℤ◌};
ghost use Rattle.card.specs.Value.{signed};
ghost use Rattle.real.specs.Real.{nearest, limited, with_exponent, without_exponent, unsigned};

use crate::parts::{after_letter, joined_number, split_digits, split_number, split_sign};

// The first number of 16 digits.
const DIGITS_END: usize = 1_000_000_000_000_000;

const MOST_POWER: u128 = 22;

// The one number of more digits that is taken: the zero of an unsigned 64-bit column.
const LONG_ZERO: usize = 9_223_372_036_854_775_808;

// 0 has no minus.
#[tactic(auto, unfolding(crate::specs::Real::nearest))]
fn nearest(minus: bool, digits: usize, power: i64) -> f64
    ensures { result ≡ nearest minus digits power }
{
    fast_float::from_parts(minus && digits > 0, digits as u64, power)
}

fn limited(minus: bool, digits: usize, power: i128) -> Option<f64>
    ensures { result ≡ limited minus digits power }
{
    if digits >= DIGITS_END || power.unsigned_abs() > MOST_POWER {
        return None;
    }
    Some(nearest(minus, digits, power as i64))
}

// The exponent and the places of the point, which the power is less by.
fn power_of_ten(minus: bool, exponent: usize, places: usize) -> i128
    ensures { result ≡ signed minus exponent -ℤ pos places }
{
    let exponent = exponent as i128;
    let signed = if minus { -exponent } else { exponent };
    signed - places as i128
}

#[tactic(auto, using(crate::proofs::Numbers::exponent_unread), unfolding(crate::specs::Real::with_exponent))]
fn with_exponent(minus: bool, digits: usize, places: usize, text: &[u8]) -> Option<f64>
    requires { places < 2 ^ 63 }
    ensures { result ≡ with_exponent minus digits places text.now }
{
    let (down, after) = split_sign(text);
    let (exponent, rest) = split_digits(after);
    if !card::may_follow(rest) {
        return None;
    }
    let exponent = ascii::digits::parse_number(exponent)?;
    limited(minus, digits, power_of_ten(down, exponent, places))
}

#[tactic(auto, unfolding(crate::specs::Real::without_exponent))]
fn without_exponent(
    minus: bool,
    digits: usize,
    point: bool,
    places: usize,
    text: &[u8],
) -> Option<f64>
    ensures { result ≡ without_exponent minus digits point places text.now }
{
    if !card::may_follow(text) {
        return None;
    }
    if !point && digits == LONG_ZERO {
        return Some(nearest(minus, digits, 0));
    }
    limited(minus, digits, -(places as i128))
}

// The number after its sign.
#[tactic(auto, using(crate::proofs::Numbers::unsigned_unread, crate::proofs::Numbers::unsigned_exponent, crate::proofs::Numbers::unsigned_plain))]
pub fn unsigned(minus: bool, text: &[u8]) -> Option<f64>
    ensures { result ≡ unsigned minus text.now }
{
    let parts = split_number(text);
    let digits = joined_number(parts.whole, parts.fraction)?;
    let places = parts.fraction.len();
    match after_letter(parts.rest) {
        Some(exponent) => with_exponent(minus, digits, places, exponent),
        None => without_exponent(minus, digits, parts.point, places, parts.rest),
    }
}
