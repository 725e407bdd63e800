// A refusal of a table's file in words (docs/FORMAT.md, section 10).
#![tactic(auto)]

mod cause;
mod names;
mod required;

ghost use Rattle.std.specs.Prelude.{◌≡◌, map};
ghost use Rattle.std.specs.List.{concat};
ghost use Rattle.words.specs.Words.{hint_text, words_with};

use refusal::Refusal;

// The most pieces of a refusal's words: those of its cause, and one that is said after it.
pub const PIECES: usize = CAUSE_PIECES + 1;

const CAUSE_PIECES: usize = 6;

// A whole FITS file begins with the record SIMPLE.
const WHOLE_FILE: &[u8] = b"SIMPLE  = ";

// The last of the refusals that come of a whole file.
const LAST_OF_WHOLE: u64 = 4;

// What is said after the cause.
#[tactic(auto, unfolding(crate::specs::Words::hint_text))]
fn hint(refusal: Refusal, file: &[u8]) -> &[u8]
    ensures { result.now ≡ hint_text refusal file.now }
{
    if refusal::number(refusal) <= LAST_OF_WHOLE && ascii::begins_with(file, WHOLE_FILE) {
        return b"; this looks like a whole FITS file, whose table is an extension: \
            cut off what stands before it (README says how)";
    }
    b""
}

// A refusal of a table's file in words, as the pieces that make them one after the other. `place` is the refusal's
// place as text.
pub fn words<'a>(refusal: Refusal, file: &'a [u8], place: &'a [u8]) -> [&'a [u8]; PIECES]
    ensures { concat (map (λ p. p.now) result) ≡ words_with place.now refusal file.now }
{
    let [a, b, c, d, e, f] = cause::cause(refusal, file, place);
    [a, b, c, d, e, f, hint(refusal, file)]
}
