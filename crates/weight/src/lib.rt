// The text of a weight, which is a 32-bit float, with the decimals of an edition: by the float's exact value and whole
// numbers only.
#![tactic(auto)]

mod units;

ghost use Rattle.std.specs.Prelude.{◌≡◌, ◌<◌, ◌+◌, ◌%◌, length, take};
ghost use Rattle.std.specs.Float.{binary32};
ghost use Rattle.std.specs.Float.Ieee.{of_bits};
ghost use Rattle.ascii.specs.Number.{right_aligned};
ghost use Rattle.ascii.specs.Buffer.{written, place_after};
ghost use Rattle.weight.specs.Weight.{weight_text, units_text, sign_text, last_digits, decimals};

// Edition 1 has one decimal, halves away from zero; edition 2 has two, halves to the even digit.
#[derive(Clone, Copy)]
pub enum Edition {
    One,
    Two,
}

// The places of a weight.
const PLACES: usize = 10;

// What is written where there is no text of that many places.
const STARS: &[u8; PLACES] = b"**********";

// The most bytes of the text of some units: a minus, the eleven digits of a number below 2^34, and the point.
const ROOM: usize = 13;

// The sign bit.
const SIGN: u32 = 2147483648;

// A decimal digit.
fn digit(n: u64) -> u8
    ensures { result ≡ 48 + n % 10 }
{
    b'0' + (n % 10) as u8
}

// The digits after the point.
#[tactic(auto, unfolding(crate::specs::Weight::last_digits))]
fn put_decimals(out: &mut [u8; ROOM], at: usize, edition: Edition, units: u64) -> usize
    ensures place { result ≡ place_after out.old at (last_digits (decimals edition) units) }
    ensures buffer { out.new ≡ written out.old at (last_digits (decimals edition) units) }
{
    match edition {
        Edition::One => ascii::buffer::put(out, at, &[digit(units)]),
        Edition::Two => ascii::buffer::put(out, at, &[digit(units / 10), digit(units)]),
    }
}

// A minus below zero; a rounded zero has none.
fn sign<'a>(negative: bool, units: u64) -> &'a [u8]
    ensures { result.now ≡ sign_text negative units }
{
    if negative && 0 < units { b"-" } else { b"" }
}

// The text of some units, to the front of a buffer. The bound is that of `units::of_bits`.
fn put_units(out: &mut [u8; ROOM], edition: Edition, negative: bool, units: u64) -> usize
    requires { units < 17179869184 }
    ensures len { result ≡ length (units_text edition negative units) }
    ensures text { take result out.new ≡ units_text edition negative units }
{
    let after_sign = ascii::buffer::put(out, 0, sign(negative, units));
    let after_whole = ascii::digits::put_decimal(out, after_sign, units / units::scale(edition));
    let after_point = ascii::buffer::put(out, after_whole, b".");
    put_decimals(out, after_point, edition, units)
}

// Writes the text of a weight, whose stored bits are given, to the first ten bytes of a field, with spaces in front. A
// field that is too short stays as it was, as of `ascii::buffer::put_right`.
#[tactic(auto, using(crate::proofs::Long::long_stars), unfolding(crate::specs::Weight::stars))]
pub fn put(field: &mut [u8], edition: Edition, bits: u32)
    ensures { field.new ≡ written field.old 0 (right_aligned 10 (weight_text edition (of_bits binary32 bits))) }
{
    if let Some(units) = units::of_bits(edition, bits) {
        let mut text = [0; ROOM];
        let len = put_units(&mut text, edition, SIGN <= bits, units);
        if len <= PLACES {
            ascii::buffer::put_right(field, 0, PLACES, &text[..len]);
            return;
        }
    }
    ascii::buffer::put_right(field, 0, PLACES, STARS);
}
