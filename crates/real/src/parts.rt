// The parts of a number's text, each with what comes after it.
ghost use Rattle.std.specs.Prelude.{◌≡◌, ◌++◌, cond, drop};
ghost use Rattle.std.specs.Option.{option_copied};
ghost use Rattle.ascii.specs.Number.{number};
ghost use Rattle.real.specs.Real.{is_minus, after_sign, digits, after_digits};
ghost use Rattle.real.specs.Real.{has_point, fraction, after_number, has_exponent};

// Digits with at most one point.
#[derive(Drop)]
pub struct Parts<'a> {
    pub whole: &'a [u8],
    pub point: bool,
    pub fraction: &'a [u8],
    pub rest: &'a [u8],
}

// Whether a minus stands in front, and what comes after the sign, if there is one.
pub fn split_sign(text: &[u8]) -> (bool, &[u8])
    ensures minus { result.0 ≡ is_minus text.now }
    ensures rest { result.1.now ≡ after_sign text.now }
{
    match text {
        [b'-', rest @ ..] => (true, rest),
        [b'+', rest @ ..] => (false, rest),
        _ => (false, text),
    }
}

// The digits in front.
#[tactic(auto, using(ascii::proofs::Front::front_le))]
pub fn split_digits(text: &[u8]) -> (&[u8], &[u8])
    ensures digits { result.0.now ≡ digits text.now }
    ensures rest { result.1.now ≡ after_digits text.now }
{
    text.split_at(ascii::leading_digits(text))
}

// The digits in front with at most one point among them.
pub fn split_number(text: &[u8]) -> Parts<'_>
    ensures whole { result.whole.now ≡ digits text.now }
    ensures point { result.point ≡ has_point text.now }
    ensures fraction { result.fraction.now ≡ fraction text.now }
    ensures rest { result.rest.now ≡ after_number text.now }
{
    let (whole, after) = split_digits(text);
    match after {
        [b'.', after @ ..] => {
            let (fraction, rest) = split_digits(after);
            Parts {
                whole,
                point: true,
                fraction,
                rest,
            }
        }
        _ => Parts {
            whole,
            point: false,
            fraction: &[],
            rest: after,
        },
    }
}

// What comes after the letter of an exponent, if one stands in front.
pub fn after_letter(text: &[u8]) -> Option<&[u8]>
    ensures { option_copied result ≡ cond (has_exponent text.now) (Some (drop 1 text.now)) None }
{
    match text {
        [b'E' | b'D', exponent @ ..] => Some(exponent),
        _ => None,
    }
}

// The number that digits before and after a point stand for together, as if it were not there.
#[tactic(auto, using(ascii::proofs::Reading::number_append_some, ascii::proofs::Reading::number_append_none))]
pub fn joined_number(whole: &[u8], fraction: &[u8]) -> Option<usize>
    ensures { result ≡ number (whole.now ++ fraction.now) }
{
    if whole.is_empty() {
        return ascii::digits::parse_number(fraction);
    }
    ascii::digits::read_on(ascii::digits::parse_number(whole)?, fraction)
}
