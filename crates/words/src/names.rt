// What is said of the keyword of a record, by its name. `place` is the number of that record as text.
ghost use Rattle.std.specs.Prelude.{◌≡◌, map};
ghost use Rattle.std.specs.List.{concat};
ghost use Rattle.words.specs.Words.{shown, kind_text, wanted_text, limit_text, value_text};
ghost use Rattle.words.specs.Words.{repeated_text, unreadable_text, invalid_text, above_limit_text};

use crate::CAUSE_PIECES;

// A name as it is shown.
#[tactic(auto, unfolding(crate::specs::Words::shown))]
fn shown(name: &[u8]) -> &[u8]
    ensures { result.now ≡ shown name.now }
{
    if name.is_empty() {
        return b"a keyword";
    }
    name
}

// What the value of a name should be.
#[tactic(auto, unfolding(crate::specs::Words::kind_text))]
fn kind(name: &[u8]) -> &[u8]
    ensures { result.now ≡ kind_text name.now }
{
    if ascii::same_bytes(name, b"XTENSION")
        || ascii::begins_with(name, b"TFORM")
        || ascii::begins_with(name, b"TTYPE")
    {
        return b"string that can be read";
    }
    b"integer that can be read"
}

// The values that are allowed.
#[tactic(auto, unfolding(crate::specs::Words::wanted_text))]
fn wanted(name: &[u8]) -> &[u8]
    ensures { result.now ≡ wanted_text name.now }
{
    if ascii::same_bytes(name, b"XTENSION") {
        return b"'BINTABLE' is wanted";
    }
    if ascii::same_bytes(name, b"BITPIX") {
        return b"8 is wanted";
    }
    if ascii::same_bytes(name, b"NAXIS") {
        return b"2 is wanted";
    }
    if ascii::same_bytes(name, b"GCOUNT") {
        return b"1 is wanted";
    }
    if ascii::same_bytes(name, b"TFIELDS") {
        return b"it must be from 0 to 999";
    }
    if ascii::same_bytes(name, b"THEAP") {
        return b"it must be from NAXIS1 x NAXIS2 to NAXIS1 x NAXIS2 + PCOUNT";
    }
    b"it must not be negative"
}

// The limit of a name's value.
#[tactic(auto, unfolding(crate::specs::Words::limit_text))]
fn limit(name: &[u8]) -> &[u8]
    ensures { result.now ≡ limit_text name.now }
{
    if ascii::same_bytes(name, b"NAXIS1") {
        return b", 1,048,576";
    }
    if ascii::same_bytes(name, b"NAXIS2") {
        return b", 16,777,216";
    }
    if ascii::same_bytes(name, b"PCOUNT") {
        return b", 2,147,483,647";
    }
    if ascii::same_bytes(name, b"TFIELDS") {
        return b", 64";
    }
    b""
}

// The words of refusal 3.
pub fn repeated<'a>(name: &'a [u8], place: &'a [u8]) -> [&'a [u8]; CAUSE_PIECES]
    ensures { concat (map (λ p. p.now) result) ≡ repeated_text place.now name.now }
{
    [
        shown(name),
        b" stands a second time, in record ",
        place,
        b", counted from 0",
        b"",
        b"",
    ]
}

// What is wrong with the value of a name.
#[tactic(auto, unfolding(crate::specs::Words::value_text))]
fn of_value<'a>(
    name: &'a [u8],
    place: &'a [u8],
    wrong: &'a [u8],
    more: &'a [u8],
) -> [&'a [u8]; CAUSE_PIECES]
    ensures { concat (map (λ p. p.now) result) ≡ value_text place.now name.now wrong.now more.now }
{
    [
        b"the value of ",
        shown(name),
        b", in record ",
        place,
        wrong,
        more,
    ]
}

// The words of refusal 5.
pub fn unreadable<'a>(name: &'a [u8], place: &'a [u8]) -> [&'a [u8]; CAUSE_PIECES]
    ensures { concat (map (λ p. p.now) result) ≡ unreadable_text place.now name.now }
{
    of_value(name, place, b", counted from 0, is no ", kind(name))
}

// The words of refusal 6.
pub fn invalid<'a>(name: &'a [u8], place: &'a [u8]) -> [&'a [u8]; CAUSE_PIECES]
    ensures { concat (map (λ p. p.now) result) ≡ invalid_text place.now name.now }
{
    of_value(
        name,
        place,
        b", counted from 0, is not allowed: ",
        wanted(name),
    )
}

// The words of refusal 7.
pub fn above_limit<'a>(name: &'a [u8], place: &'a [u8]) -> [&'a [u8]; CAUSE_PIECES]
    ensures { concat (map (λ p. p.now) result) ≡ above_limit_text place.now name.now }
{
    of_value(
        name,
        place,
        b", counted from 0, is above the limit of this reader",
        limit(name),
    )
}
