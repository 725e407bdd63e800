// What refused the table.
ghost use Rattle.std.specs.Prelude.{◌≡◌, [], ◌∷◌, map};
ghost use Rattle.std.specs.List.{concat};
ghost use Rattle.words.specs.Words.{length_text, missing_text, scaling_text, cause_text};

use crate::{CAUSE_PIECES, names, required};
use refusal::Refusal;

// What is no form, after its keyword.
const NO_FORM: &[u8] = b" is no form that can be read: \
    a form is a count of 8,388,608 at most, or none, and a letter of L X B A I J E K D C M; \
    or a count of 0 or 1, or none, then P or Q and then one of these letters";

const NO_COLUMN: &[u8] = b"no column is left in the choice: the table has none, \
    or none of the chosen indexes, counted from 0, is one of its columns";

const NO_SUITABLE_COLUMN: &[u8] = b"the column is missing, not of a type that is taken here \
    or scaled by TSCALn or TZEROn, or there is no such edition";

// What is no scaling, after its keywords.
const BAD_SCALING: &[u8] = b" is not a number that this reader takes, is given twice, \
    or stands at a column whose type has no scaling: those of B, I, J, K, E and D have one";

// What is no null, after its keyword.
const BAD_NULL: &[u8] = b" is not an integer of at most 19 digits, is given twice, \
    or stands at a column whose type has no missing values: those of B, I, J and K have them";

// A text of one piece.
fn one(text: &[u8]) -> [&[u8]; CAUSE_PIECES]
    ensures { concat (map (λ p. p.now) result) ≡ text.now }
{
    [text, b"", b"", b"", b"", b""]
}

// A text of three pieces.
fn three<'a>(a: &'a [u8], b: &'a [u8], c: &'a [u8]) -> [&'a [u8]; CAUSE_PIECES]
    ensures { concat (map (λ p. p.now) result) ≡ concat (a.now ∷ b.now ∷ c.now ∷ []) }
{
    [a, b, c, b"", b"", b""]
}

// The words of refusal 1.
#[tactic(auto, unfolding(crate::specs::Words::length_text))]
fn length(file: &[u8]) -> &[u8]
    ensures { result.now ≡ length_text file.now }
{
    if file.is_empty() {
        return b"the file is empty";
    }
    b"the length of the header is above 57,600 or no multiple of 2,880 bytes; \
        a file without END is all header"
}

// The words of refusal 4.
fn missing_name<'a>(file: &'a [u8], n: usize, place: &'a [u8]) -> [&'a [u8]; CAUSE_PIECES]
    ensures { concat (map (λ p. p.now) result) ≡ missing_text place.now file.now n }
{
    if n == 0 {
        return three(required::name(file), b"", b" is missing");
    }
    three(b"TFORM", place, b" is missing")
}

// The words of refusal 16.
fn scaling(place: &[u8]) -> [&[u8]; CAUSE_PIECES]
    ensures { concat (map (λ p. p.now) result) ≡ scaling_text place.now }
{
    [b"TSCAL", place, b" or TZERO", place, BAD_SCALING, b""]
}

// The words of each refusal, by its cause.
pub fn cause<'a>(refusal: Refusal, file: &'a [u8], place: &'a [u8]) -> [&'a [u8]; CAUSE_PIECES]
    ensures { concat (map (λ p. p.now) result) ≡ cause_text place.now refusal file.now }
{
    match refusal {
        Refusal::BadLength => one(length(file)),
        Refusal::MissingEnd => one(b"no record is END, so the header has no end"),
        Refusal::RepeatedName { record } => names::repeated(card::name(file, record), place),
        Refusal::MissingName { n } => missing_name(file, n, place),
        Refusal::UnreadableValue { record } => names::unreadable(card::name(file, record), place),
        Refusal::InvalidValue { record } => names::invalid(card::name(file, record), place),
        Refusal::AboveLimit { record } => names::above_limit(card::name(file, record), place),
        Refusal::BadForm { n: _ } => three(b"TFORM", place, NO_FORM),
        Refusal::RowSizeMismatch => one(
            b"the bytes of the columns do not add up to NAXIS1; a field of P or Q with count 0 takes none",
        ),
        Refusal::Mismatch => one(
            b"the file is shorter than its header says: the data need NAXIS1 x NAXIS2 + PCOUNT bytes",
        ),
        Refusal::NoColumn => one(NO_COLUMN),
        Refusal::NoSuchRow { row: _ } => {
            three(b"row ", place, b", counted from 0, is no row of the table")
        }
        Refusal::ArrayOutsideHeap { column: _ } => three(
            b"an array of column ",
            place,
            b", counted from 0, ends past the heap",
        ),
        Refusal::ShortList { needed: _ } => three(
            b"the list is shorter than what is left of the row, ",
            place,
            b" cells",
        ),
        Refusal::Unsuitable => one(NO_SUITABLE_COLUMN),
        Refusal::InvalidScaling { n: _ } => scaling(place),
        Refusal::InvalidNull { n: _ } => three(b"TNULL", place, BAD_NULL),
        Refusal::BufferMismatch => {
            one(b"the two buffers differ in length, or are shorter than the table")
        }
    }
}
