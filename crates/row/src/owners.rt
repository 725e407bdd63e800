// The calls for a caller that has nothing to lend: the cell read and the seek, and the owner of a list of cells, which
// a row read is lent.
ghost use Rattle.std.specs.Prelude.{◌≡◌, get_or};
ghost use Rattle.walk.specs.Walk.{read_cell, seek};
ghost use Rattle.walk.specs.Step.{cursor_step, cell_result, row_result, seek_result};
ghost use Rattle.row.specs.Owned.{own_read};

use cell::Cell;
use layout::BinTable;
use walk::{How, Stepped, TableData};

// The most cells that an owner lends: its list is a local array, whose length is fixed. A row with more cells left
// is refused with 14; `read_row` itself takes a list of any length.
pub const LIST_LIMIT: usize = 512;

// What a row read returned, and one cell of the list afterwards.
#[derive(Clone, Copy)]
pub struct RowCell {
    pub stepped: Stepped<Option<u64>>,
    pub cell: Cell,
}

// The cell read: that of `table`, under the name that a caller of the owners has it by.
pub fn next(layout: BinTable, area: &[u8], cursor: TableData, how: How) -> Stepped<Option<Cell>>
    ensures { cell_result result.cursor result.answer ≡ cursor_step layout area.now cursor (read_cell how) }
{
    table::next(layout, area, cursor, how)
}

// The seek, likewise.
pub fn seek_to_row(layout: BinTable, area: &[u8], cursor: TableData, row: usize) -> Stepped<()>
    ensures { seek_result result.cursor result.answer ≡ cursor_step layout area.now cursor (seek row) }
{
    table::seek_to_row(layout, area, cursor, row)
}

// The row read, with a cursor and a list of its own that are lent for it: n cells, 512 at most, all of them `filler`
// before. Cell k of it afterwards, `filler` if there is none.
pub fn row_cell(
    layout: BinTable,
    area: &[u8],
    cursor: TableData,
    how: How,
    filler: Cell,
    n: usize,
    k: usize,
) -> RowCell
    ensures step { row_result result.stepped.cursor result.stepped.answer
        (own_read layout area.now cursor how filler n).list
        ≡ own_read layout area.now cursor how filler n }
    ensures cell { result.cell ≡ get_or (own_read layout area.now cursor how filler n).list k filler }
{
    let mut own = cursor;
    // One cell more than is lent at most, so that there is one that is not stored to.
    let mut list = [filler; LIST_LIMIT + 1];
    let len = n.min(LIST_LIMIT);
    let answer = super::next_row(&mut own, layout, area, how, &mut list[..len]);
    let i = k.min(LIST_LIMIT);
    let cell = list[i];
    let stepped = Stepped {
        cursor: own,
        answer,
    };
    RowCell { stepped, cell }
}

// The same, under the name that a caller of landings 4 to 10 has it by.
pub fn next_row_cell(
    layout: BinTable,
    area: &[u8],
    cursor: TableData,
    how: How,
    filler: Cell,
    n: usize,
    k: usize,
) -> RowCell
    ensures step { row_result result.stepped.cursor result.stepped.answer
        (own_read layout area.now cursor how filler n).list
        ≡ own_read layout area.now cursor how filler n }
    ensures cell { result.cell ≡ get_or (own_read layout area.now cursor how filler n).list k filler }
{
    row_cell(layout, area, cursor, how, filler, n, k)
}
