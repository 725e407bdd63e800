// Where a string ends, what may come after a value, and the records that are END or hold a value.
ghost use Rattle.std.specs.Prelude.{◌≡◌, ◌+◌, cond, ltb, length};
ghost use Rattle.card.specs.Ends.{follows, closing};
ghost use Rattle.card.specs.Record.{is_end, has_value};

use super::RECORD_BYTES;

// The bytes of a record: its name, the value indicator, and its value field.
pub type Record = [u8; RECORD_BYTES];

pub const NAME_BYTES: usize = 8;

pub const FIELD_START: usize = 10;

// Whether these bytes may come after a value.
#[tactic(auto, using(crate::proofs::Closing::follows_at, crate::proofs::Closing::follows_none))]
pub fn may_follow(s: &[u8]) -> bool
    ensures { result ≡ follows s.now }
{
    match s.get(ascii::leading_spaces(s)) {
        Some(after) => *after == b'/',
        None => true,
    }
}

// Where the quote stands that closes a string. Two quotes in a row stand for one.
pub fn closing_quote(s: &[u8]) -> Option<usize>
    ensures { result ≡ cond (ltb (closing s.now) (length s.now)) (Some (closing s.now)) None }
{
    let mut rest = s;
    loop {
        let (first, after) = rest.split_first()?;
        if *first != b'\'' {
            rest = after;
            continue;
        }
        match after.strip_prefix(b"'") {
            Some(after) => rest = after,
            None => return Some(s.len() - rest.len()),
        }
    }
}

// Whether a record's bytes are END.
pub fn end_card(s: &Record) -> bool
    ensures { result ≡ is_end s.now }
{
    s.starts_with(b"END") && ascii::all_spaces(&s[3..])
}

// Whether a record's bytes 9 and 10 are `= `.
pub fn value_indicator(s: &Record) -> bool
    ensures { result ≡ has_value s.now }
{
    s[NAME_BYTES..].starts_with(b"= ")
}
