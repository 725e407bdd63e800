// One 80-byte record of a header: whether it is END, whether it holds a value, its name, its value.
//
// Every call takes the whole header and a record's number, from 0. A number past the last whole
// record reads as a blank record.
#![tactic(auto)]

mod field;
mod text;

ghost use Rattle.std.specs.Prelude.{◌≡◌, cond, ◌/◌, ltb, length, drop};
ghost use Rattle.std.specs.Option.{option_copied};
ghost use Rattle.card.specs.Record.{card_at, is_end, has_value, name_of};
ghost use Rattle.card.specs.Value.{value_of, wide_of};

pub use text::may_follow;
use text::{FIELD_START, NAME_BYTES, Record};

// How long a record is.
pub const RECORD_BYTES: usize = 80;

// What a record's value field says. A string is the stretch of the header between its quotes, with trailing spaces off
// and doubled quotes still doubled: by its place and no slice, since a layout keeps the place of a name. An unreadable
// value is none.
#[derive(Clone, Copy)]
pub enum Value {
    Integer(i64),
    String { start: usize, len: usize },
}

// The bytes of a record, or none past the last whole record.
fn record_at(header: &[u8], number: usize) -> Option<&Record>
    ensures { option_copied result
        ≡ cond (ltb number (length header.now / 80)) (Some (card_at header.now number)) None }
{
    let start = number.checked_mul(RECORD_BYTES)?;
    header.get(start..)?.first_chunk()
}

// Whether the record is END.
#[tactic(auto, using(crate::proofs::Records::no_end))]
pub fn is_end(header: &[u8], number: usize) -> bool
    ensures { result ≡ is_end (card_at header.now number) }
{
    record_at(header, number).is_some_and(text::end_card)
}

// Whether the record holds a value.
#[tactic(auto, using(crate::proofs::Records::no_value))]
pub fn has_value(header: &[u8], number: usize) -> bool
    ensures { result ≡ has_value (card_at header.now number) }
{
    record_at(header, number).is_some_and(text::value_indicator)
}

// The record's name, a part of the header; empty for a record that holds no value, as the definition has it.
pub fn name(header: &[u8], number: usize) -> &[u8]
    ensures { result.now ≡ name_of (card_at header.now number) }
{
    let Some(card) = record_at(header, number) else {
        return &[];
    };
    if !text::value_indicator(card) {
        return &[];
    }
    let name = &card[..NAME_BYTES];
    &name[..ascii::trimmed_len(name)]
}

// Bytes 11 to 80 of a record that holds a value.
pub fn value_field(header: &[u8], number: usize) -> Option<&[u8]>
    ensures { option_copied result
        ≡ cond (has_value (card_at header.now number)) (Some (drop 10 (card_at header.now number))) None }
{
    let card = record_at(header, number)?;
    if !text::value_indicator(card) {
        return None;
    }
    Some(&card[FIELD_START..])
}

// The record's value.
#[tactic(auto, using(crate::proofs::Values::value_unreadable))]
pub fn parse_value(header: &[u8], number: usize) -> Option<Value>
    ensures { result ≡ value_of header.now number }
{
    let field = value_field(header, number)?;
    field::field_value(field, number * RECORD_BYTES + FIELD_START)
}

// The integer of 19 digits at most that the record's value is.
#[tactic(auto, using(crate::proofs::Values::wide_unreadable))]
pub fn parse_wide(header: &[u8], number: usize) -> Option<i128>
    ensures { result ≡ wide_of header.now number }
{
    field::field_wide(value_field(header, number)?)
}
