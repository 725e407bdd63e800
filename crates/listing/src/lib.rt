// The lines that `cells` and `replay` print, as text in a lent buffer.
#![tactic(auto)]

mod digits;
mod lines;
mod values;
mod words;
pub mod writer;

ghost use Rattle.std.specs.Prelude.{◌≡◌};
ghost use Rattle.listing.specs.Lines.{line_text};
ghost use Rattle.ascii.specs.Buffer.{written, written_to};

use cell::Cell;
use layout::BinTable;
use refusal::Refusal;
use walk::TableData;

// A line, and a refusal is printed as one. What it says of the table and its columns stands in the layout and the
// header, which are lent when it is written.
#[derive(Clone, Copy)]
pub enum Line {
    Table,
    Column(usize),
    Cell(Cell),
    End(u64),
    Refused(Refusal),
    // Those of `replay` alone: the count of a row read, the row that was sought, the end as the answer of a step,
    // the cursor's place and count, and a line of the steps that says no step, by its number.
    Row(u64),
    Seek(usize),
    AtEnd,
    At(TableData),
    BadLine(usize),
}

// Writes a line and its line feed from a place of the buffer on. The rest of the buffer stays as it was, and where
// there is no room for all of it, all of the buffer does.
pub fn put_line(
    out: &mut [u8],
    at: usize,
    header: &[u8],
    layout: BinTable,
    line: Line,
) -> Option<usize>
    ensures to { result ≡ written_to out.old at (line_text header.now layout line) }
    ensures buffer { out.new ≡ written out.old at (line_text header.now layout line) }
{
    put_line_of(out, at, header, &layout, line)
}

// The same with a layout that is lent: only the lines of a table and of a column copy it.
#[tactic(auto, unfolding(ascii::specs::Text::bytes, crate::specs::Lines::line, crate::specs::Lines::end_line, crate::specs::Lines::row_line, crate::specs::Lines::seek_line, crate::specs::Lines::at_end_line, crate::specs::Lines::bad_line))]
pub fn put_line_of(
    out: &mut [u8],
    at: usize,
    header: &[u8],
    layout: &BinTable,
    line: Line,
) -> Option<usize>
    ensures to { result ≡ written_to out.old at (line_text header.now layout.now line) }
    ensures buffer { out.new ≡ written out.old at (line_text header.now layout.now line) }
{
    match line {
        Line::Table => lines::table_line(*layout).put_to(out, at),
        Line::Column(c) => lines::column_line(out, at, header, *layout, c),
        Line::Cell(cell) => lines::cell_line(cell).put_to(out, at),
        Line::End(cells) => lines::number_line(b"end", cells).put_to(out, at),
        Line::Refused(refusal) => lines::refused_line(refusal).put_to(out, at),
        Line::Row(cells) => lines::number_line(b"row", cells).put_to(out, at),
        Line::Seek(row) => lines::number_line(b"seek", row as u64).put_to(out, at),
        Line::AtEnd => ascii::buffer::put_text(out, at, b"end\n"),
        Line::At(cursor) => lines::at_line(cursor).put_to(out, at),
        Line::BadLine(number) => lines::number_line(b"bad line", number as u64).put_to(out, at),
    }
}
