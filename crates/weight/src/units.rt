// A float in units of the last decimal.
ghost use Rattle.std.specs.Prelude.{◌≡◌, ◌<◌, ◌^◌, ◌*◌, IfSome};
ghost use Rattle.std.specs.Float.{binary32};
ghost use Rattle.std.specs.Float.Ieee.{of_bits};
ghost use Rattle.weight.specs.Weight.{decimals, halfway, rounded, weight_text};
ghost use Rattle.weight.specs.Code.{sign_bit, text_by};

use super::Edition;

// How many values the bits of the fraction have.
const FRACTION: u32 = 8388608;

// The exponent's field from which on each value is a whole number.
const WHOLE: u32 = 150;

// That from which on it has nine digits or more before the point, so its text is too long in each edition.
const NINE_DIGITS: u32 = 154;

// The shift from which on less than half a unit is left: a significand times 100 is below 2^31.
const NOTHING_LEFT: u32 = 32;

// The units in one.
pub fn scale(edition: Edition) -> u64
    ensures { result ≡ 10 ^ decimals edition }
{
    match edition {
        Edition::One => 10,
        Edition::Two => 100,
    }
}

// Where a number halfway between `below` and the next one goes.
fn halfway(edition: Edition, below: u64) -> u64
    requires { below < 4294967296 }
    ensures { result ≡ halfway edition below }
{
    match edition {
        Edition::One => below + 1,
        Edition::Two => below + below % 2,
    }
}

// A number divided by a power of two, to the nearest whole number.
fn rounded(edition: Edition, num: u64, shift: u32) -> u64
    requires num { num < 4294967296 }
    requires shift { shift < 32 }
    ensures { result ≡ rounded edition num (2 ^ shift) }
{
    let below = num >> shift;
    let one = 1 << shift;
    let twice = (num % one) * 2;
    if twice < one {
        below
    } else if one < twice {
        below + 1
    } else {
        halfway(edition, below)
    }
}

// A significand over a power of two, in units.
fn shifted(edition: Edition, significand: u32, shift: u32) -> u64
    requires { significand < 16777216 }
    ensures units { result ≡ rounded edition (significand * 10 ^ decimals edition) (2 ^ shift) }
    ensures bound { result < 17179869184 }
{
    if shift >= NOTHING_LEFT {
        return 0;
    }
    rounded(edition, significand as u64 * scale(edition), shift)
}

// A float by its bits, in units, its sign aside. They are below 2^34: a significand below 2^24, times 8 times 100 at
// most. None where it is no number or, by its exponent, has nine digits or more before its point; the text of the
// others may be too long too.
pub fn of_bits(edition: Edition, bits: u32) -> Option<u64>
    ensures text { weight_text edition (of_bits binary32 bits) ≡ text_by edition (sign_bit bits) result }
    ensures bound { IfSome result (λ units. units < 17179869184) }
{
    let fraction = bits % FRACTION;
    let exponent = bits / FRACTION % 256;
    if exponent >= NINE_DIGITS {
        return None;
    }
    if exponent == 0 {
        return Some(shifted(edition, fraction, WHOLE - 1));
    }
    let significand = FRACTION + fraction;
    if exponent < WHOLE {
        return Some(shifted(edition, significand, WHOLE - exponent));
    }
    Some(((significand as u64) << (exponent - WHOLE)) * scale(edition))
}
