// Each line, put together and then copied to the lent buffer, where it has room for all of it.
ghost use Rattle.std.specs.Prelude.{◌≡◌, [], ◌∷◌, ◌++◌, ◌+◌, ◌≤◌, length};
ghost use Rattle.refusal.specs.Refusal.{number_of, place_of};
ghost use Rattle.walk.specs.Plain.{column_of};
ghost use Rattle.ascii.specs.Buffer.{written, written_to};
ghost use Rattle.ascii.specs.Number.{decimal_text};
ghost use Rattle.listing.specs.Writer.{room};
ghost use Rattle.listing.specs.Lines.{line, table_line, shown_name, column_line, cell_line, refused_line, at_line};

use crate::writer::Writer;
use cell::Cell;
use layout::{BinTable, Column, NO_COLUMN};
use refusal::Refusal;
use walk::TableData;

// A line of a word and a number, which has 20 digits at most.
#[tactic(auto, using(crate::proofs::Written::pieces), unfolding(ascii::specs::Text::bytes, crate::specs::Lines::line))]
pub fn number_line(word: &[u8], number: u64) -> Writer
    requires { length word.now + 22 ≤ room }
    ensures { result ≡ line (word.now ∷ decimal_text number ∷ []) }
{
    let mut line = Writer::new();
    line.word(word, b' ');
    line.number(number, b'\n');
    line
}

#[tactic(auto, using(crate::proofs::Written::pieces), unfolding(ascii::specs::Text::bytes, crate::specs::Lines::line, crate::specs::Lines::refused_line))]
pub fn refused_line(refusal: Refusal) -> Writer
    ensures { result ≡ refused_line (number_of refusal) (place_of refusal) }
{
    let mut line = Writer::new();
    line.word(b"refused", b' ');
    line.number(refusal::number(refusal), b' ');
    line.number(refusal::place(refusal), b'\n');
    line
}

#[tactic(auto, using(crate::proofs::Written::pieces), unfolding(ascii::specs::Text::bytes, crate::specs::Lines::line, crate::specs::Lines::at_line))]
pub fn at_line(cursor: TableData) -> Writer
    ensures { result ≡ at_line cursor }
{
    let mut line = Writer::new();
    line.word(b"at", b' ');
    line.number(cursor.row, b' ');
    line.number(cursor.passed, b' ');
    line.number(cursor.count as u64, b'\n');
    line
}

#[tactic(auto, using(crate::proofs::Written::pieces, crate::proofs::Short::value_put), unfolding(ascii::specs::Text::bytes, crate::specs::Lines::line, crate::specs::Lines::cell_line))]
pub fn cell_line(cell: Cell) -> Writer
    ensures { result ≡ cell_line cell }
{
    let mut line = Writer::new();
    line.word(b"cell", b' ');
    line.number(cell.row, b' ');
    line.number(cell.column as u64, b' ');
    line.number(cell.idx, b' ');
    line.put_value(cell.value);
    line.put(b"\n");
    line
}

#[tactic(auto, using(crate::proofs::Written::pieces), unfolding(ascii::specs::Text::bytes, crate::specs::Lines::line, crate::specs::Lines::table_line))]
pub fn table_line(layout: BinTable) -> Writer
    ensures { result ≡ table_line layout }
{
    let mut line = Writer::new();
    line.word(b"table", b' ');
    line.number(layout.tfields as u64, b' ');
    line.word(b"columns", b' ');
    line.number(layout.naxis2, b' ');
    line.word(b"rows", b' ');
    line.number(layout.naxis1, b' ');
    line.word(b"bytes", b'\n');
    line
}

// The start of a line, a name and the line feed. The name is a part of the header, of any length, so it does not go
// through a writer.
#[tactic(auto, unfolding(ascii::specs::Buffer::written, ascii::specs::Buffer::written_to))]
fn put_named(out: &mut [u8], at: usize, start: &[u8], name: &[u8]) -> Option<usize>
    ensures to { result ≡ written_to out.old at (start.now ++ (name.now ++ (10 ∷ []))) }
    ensures buffer { out.new ≡ written out.old at (start.now ++ (name.now ++ (10 ∷ []))) }
{
    let rest = out.len().checked_sub(at)?.checked_sub(start.len())?;
    if rest <= name.len() {
        return None;
    }
    let next = ascii::buffer::put(out, at, start);
    let feed = ascii::buffer::put(out, next, name);
    Some(ascii::buffer::put(out, feed, b"\n"))
}

// A column of the layout, and for an index past the array what stands there where there is no column.
fn column_of(layout: BinTable, c: usize) -> Column
    ensures { result ≡ column_of layout c }
{
    layout.columns.get(c).copied().unwrap_or(NO_COLUMN)
}

// A name as it is shown: a dash for an empty one.
#[tactic(auto, unfolding(ascii::specs::Text::bytes))]
fn shown_name(name: &[u8]) -> &[u8]
    ensures { result.now ≡ shown_name name.now }
{
    if name.is_empty() {
        return b"-";
    }
    name
}

#[tactic(auto, using(crate::proofs::Written::pieces), unfolding(ascii::specs::Text::bytes, crate::specs::Lines::line, crate::specs::Lines::column_line))]
pub fn column_line(
    out: &mut [u8],
    at: usize,
    header: &[u8],
    layout: BinTable,
    c: usize,
) -> Option<usize>
    ensures to { result ≡ written_to out.old at (column_line header.now layout c) }
    ensures buffer { out.new ≡ written out.old at (column_line header.now layout c) }
{
    let column = column_of(layout, c);
    let mut line = Writer::new();
    line.word(b"column", b' ');
    line.number(c as u64, b' ');
    line.word(&[tform::form_letter(column.form)], b' ');
    line.number(column.count as u64, b' ');
    line.word(b"at", b' ');
    line.number(column.start, b' ');
    let name = layout::column_name(header, layout, c);
    put_named(out, at, line.text(), shown_name(name))
}
