// The profile page: a row of an E column as lines of 27 bytes, each with the row, the index and the weight of an item.
#![tactic(auto)]

ghost use Rattle.std.specs.Prelude.{◌≡◌, ◌≤◌, ◌<◌, ◌+◌, ◌*◌, length, cond, Some, None};
ghost use Rattle.std.specs.Float.{binary32};
ghost use Rattle.std.specs.Float.Ieee.{of_bits};
ghost use Rattle.ascii.specs.Number.{decimal_text, right_aligned};
ghost use Rattle.ascii.specs.Buffer.{put_in, written};
ghost use Rattle.walk.specs.Plain.{column_of};
ghost use Rattle.weight.specs.Weight.{weight_text};
ghost use Rattle.profile.specs.Page.{profile_line, edition_of, page_column, page_reply, page_left, reply_of};
ghost use Rattle.profile.specs.Lines.{lines};

use itoa::Buffer;
use layout::{BinTable, Column};
use refusal::Refusal;
use weight::Edition;

// The bytes of a line.
const LINE: usize = 27;

// Where the fields of the index and of the weight begin in it, and the places of the first two fields.
const IDX_AT: usize = 9;

const WEIGHT_AT: usize = 16;

const ROW_PLACES: usize = 8;

const IDX_PLACES: usize = 6;

// A field of E items in the data area: its first byte, and its row.
#[derive(Clone, Copy)]
struct Field<'a> {
    area: &'a [u8],
    at: u64,
    row: u64,
}

// Writes a number to the part of a line that begins with its field, right-aligned in so many places.
fn put_number(part: &mut [u8], places: usize, n: u64)
    ensures { part.new ≡ written part.old 0 (right_aligned places (decimal_text n)) }
{
    let mut digits = Buffer::new();
    ascii::buffer::put_right(part, 0, places, ascii::digits::decimal(n, &mut digits));
}

// Writes a line. Each field's writer gets the part of the line that begins with the field.
fn put_line(line: &mut [u8], row: u64, idx: u64, edition: Edition, bits: u32)
    requires line { length line.old ≡ 27 }
    requires row { row < 100000000 }
    requires idx { idx < 1000000 }
    ensures { line.new ≡ profile_line row idx (weight_text edition (of_bits binary32 bits)) }
{
    put_number(line, ROW_PLACES, row);
    line[IDX_AT - 1] = b' ';
    put_number(&mut line[IDX_AT..], IDX_PLACES, idx);
    line[WEIGHT_AT - 1] = b' ';
    weight::put(&mut line[WEIGHT_AT..], edition, bits);
    line[LINE - 1] = b'\n';
}

// Writes the lines of the first n items of a field to the front of a page.
fn put_lines(page: &mut [u8], field: Field, edition: Edition, n: usize)
    requires room { n * 27 ≤ length page.old }
    requires row { field.row < 100000000 }
    requires few { n ≤ 1000000 }
    requires at { field.at + n * 4 ≤ 9223372036854775807 }
    ensures { page.new ≡ put_in page.old 0 (lines field.entry edition n) }
{
    for i in 0..n {
        let bits = cell::words::u32_at(field.area, field.at + i as u64 * 4, 0);
        put_line(
            &mut page[i * LINE..(i + 1) * LINE],
            field.row,
            i as u64,
            edition,
            bits,
        );
    }
}

// The edition with a number.
fn edition_of(number: u64) -> Option<Edition>
    ensures { result ≡ edition_of number }
{
    match number {
        1 => Some(Edition::One),
        2 => Some(Edition::Two),
        _ => None,
    }
}

// The column with an index, of which there are pages; none where there is no column, or it is of another form than E, or
// has a factor or a zero.
fn find_page_column(layout: &BinTable, c: usize) -> Option<Column>
    requires { layout.now.tfields ≤ 64 }
    ensures { result ≡ cond (page_column layout.now c) (Some (column_of layout.now c)) None }
{
    if layout.tfields <= c || tform::form_letter(layout.columns[c].form) != b'E' {
        return None;
    }
    if layout.columns[c].scaling_given {
        return None;
    }
    Some(layout.columns[c])
}

// Writes the page of a row of an E column with neither factor nor zero to the front of a buffer, and hands back how many
// bytes those are. Refused with 10 if the layout and the area do not belong together, then with 15 if there is no such
// edition or column, with 12 if there is no such row, and with 14 if the buffer is too short. A refusal writes nothing.
pub fn put_page(
    layout: BinTable,
    area: &[u8],
    column: usize,
    row: usize,
    edition: u64,
    page: &mut [u8],
) -> Result<usize, Refusal>
    ensures reply { reply_of result ≡ page_reply layout area.now column row edition (length page.old) }
    ensures page { page.new ≡ page_left layout area.now column row edition page.old }
{
    if !table::fits(layout, area) {
        return Err(Refusal::Mismatch);
    }
    let edition = edition_of(edition).ok_or(Refusal::Unsuitable)?;
    let column = find_page_column(&layout, column).ok_or(Refusal::Unsuitable)?;
    if layout.naxis2 <= row as u64 {
        return Err(Refusal::NoSuchRow { row });
    }
    let n = column.count as usize;
    let needed = n * LINE;
    if page.len() < needed {
        return Err(Refusal::ShortList {
            needed: needed as u64,
        });
    }
    let field = Field {
        area,
        at: row as u64 * layout.naxis1 + column.start,
        row: row as u64,
    };
    put_lines(page, field, edition, n);
    Ok(needed)
}
