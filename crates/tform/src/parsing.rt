// The parts of a form's text: the count, the letter, and after P and Q the letter of the elements.
ghost use Rattle.std.specs.Prelude.{◌≡◌, cond, min, eqb, length};
ghost use Rattle.ascii.specs.Text.{front, digit, decimal};
ghost use Rattle.tform.specs.Form.{element_of, first_element, kind_of};

use super::{COUNT_LIMIT, TFormType, VariableArrayTy};

// A count above every limit.
const OVER_LIMIT: u32 = COUNT_LIMIT + 1;

// `n`, or a count above every limit if it is larger.
fn capped(n: usize) -> u32
    ensures { result ≡ min 8388609 n }
{
    n.min(OVER_LIMIT as usize) as u32
}

// The count that digits are, capped, with 1 where there are none. A number that is too large to be held is above every
// limit.
pub fn repeat_count(digits: &[u8]) -> u32
    requires { front digit digits.now ≡ length digits.now }
    ensures { result ≡ cond (eqb (length digits.now) 0) 1 (min 8388609 (decimal 0 digits.now)) }
{
    if digits.is_empty() {
        return 1;
    }
    match ascii::digits::parse_number(digits) {
        Some(count) => capped(count),
        None => OVER_LIMIT,
    }
}

// It stands alone in what is compiled: each copy would have tables of its own in read-only memory. No `TryFrom`, whose
// error nobody would read.
#[inline(never)]
#[tactic(auto, unfolding(crate::specs::Form::element_of, crate::specs::Form::element_among))]
fn element_of(letter: u8) -> Option<VariableArrayTy>
    ensures { result ≡ element_of letter }
{
    match letter {
        b'L' => Some(VariableArrayTy::L),
        b'X' => Some(VariableArrayTy::X),
        b'B' => Some(VariableArrayTy::B),
        b'I' => Some(VariableArrayTy::I),
        b'J' => Some(VariableArrayTy::J),
        b'K' => Some(VariableArrayTy::K),
        b'A' => Some(VariableArrayTy::A),
        b'E' => Some(VariableArrayTy::E),
        b'D' => Some(VariableArrayTy::D),
        b'C' => Some(VariableArrayTy::C),
        b'M' => Some(VariableArrayTy::M),
        _ => None,
    }
}

#[tactic(auto, unfolding(crate::specs::Form::first_element))]
fn first_element(text: &[u8]) -> Option<VariableArrayTy>
    ensures { result ≡ first_element text.now }
{
    element_of(*text.first()?)
}

// The form by the letters after the digits.
#[tactic(auto, unfolding(crate::specs::Form::kind_of))]
pub fn kind_of(text: &[u8]) -> Option<TFormType>
    ensures { result ≡ kind_of text.now }
{
    let (first, rest) = text.split_first()?;
    match *first {
        b'P' => first_element(rest).map(TFormType::P),
        b'Q' => first_element(rest).map(TFormType::Q),
        letter => element_of(letter).map(TFormType::Items),
    }
}
