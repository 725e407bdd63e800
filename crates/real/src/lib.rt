// A real number as a record's value, and the double nearest to it: digits with at most one point, and an exponent or
// none. Of more than 15 digits, or a power of ten past 22 either way, nothing is read, with one exception (double.rt).
#![tactic(auto)]

mod double;
mod parts;

ghost use Rattle.std.specs.Prelude.{◌≡◌};
ghost use Rattle.real.specs.Real.{real_of, real_at};

use parts::split_sign;

// The number that a text begins with, if it is one and nothing but spaces or a comment comes after it.
fn parse_text(text: &[u8]) -> Option<f64>
    ensures { result ≡ real_of text.now }
{
    let (minus, rest) = split_sign(text);
    double::unsigned(minus, rest)
}

// The real number that a record's value is.
#[tactic(auto, using(ascii::proofs::Front::front_le, ascii::proofs::Parts::part_from), unfolding(crate::specs::Real::real_at))]
pub fn parse(header: &[u8], number: usize) -> Option<f64>
    ensures { result ≡ real_at header.now number }
{
    let field = card::value_field(header, number)?;
    parse_text(&field[ascii::leading_spaces(field)..])
}
