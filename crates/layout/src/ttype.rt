// The names of columns, in a header that may be another than the one the layout was made from.
ghost use Rattle.std.specs.Prelude.{◌≡◌, ◌&&◌, ◌∷◌, cond};
ghost use Rattle.std.specs.Option.{option_copied};
ghost use Rattle.layout.specs.Names.{undoubled, in_header, stretch_of, alike, same_name};

use super::Name;

// The part of the header that is the name. None where there is no name, or the header is too short for it.
pub fn part(header: &[u8], name: Option<Name>) -> Option<&[u8]>
    ensures { option_copied result ≡ cond (in_header header.now name) (Some (stretch_of header.now name)) None }
{
    let Name { start, len } = name?;
    let from = start as usize;
    let to = from + len as usize;
    header.get(from..to)
}

// What is left of a name after a byte, where two quotes count as one.
fn past_quote(byte: u8, after: &[u8]) -> &[u8]
    ensures { undoubled (byte ∷ after.now) ≡ byte ∷ undoubled result.now }
{
    if byte != b'\'' {
        return after;
    }
    after.strip_prefix(b"'").unwrap_or(after)
}

// Whether two bytes are the same, or the same letter in two cases. Equal bytes are told at once, for speed
// (docs/SPEED.md).
#[tactic(auto, using(crate::proofs::Alike::alike_ascii))]
fn alike(a: u8, b: u8) -> bool
    ensures { result ≡ alike a b }
{
    a == b || a.eq_ignore_ascii_case(&b)
}

// Whether a name of the header is the one sought.
fn same_name(part: &[u8], sought: &[u8]) -> bool
    ensures { result ≡ same_name part.now sought.now }
{
    let mut rest = part;
    for byte in sought {
        let Some((own, after)) = rest.split_first() else {
            return false;
        };
        if !alike(*own, *byte) {
            return false;
        }
        rest = past_quote(*own, after);
    }
    rest.is_empty()
}

// Whether a column's name is the one sought.
pub fn has_name(header: &[u8], name: Option<Name>, sought: &[u8]) -> bool
    ensures { result ≡ (in_header header.now name && same_name (stretch_of header.now name) sought.now) }
{
    part(header, name).is_some_and(|own| same_name(own, sought))
}
