// The calls of the library as README shows them.
#![tactic(auto)]

ghost use Rattle.std.specs.Prelude.{◌≡◌, get_or};
ghost use Rattle.cell.specs.Item.{blank_cell};
ghost use Rattle.walk.specs.Step.{cell_reply, row_result};
ghost use Rattle.example.specs.Weight.{first_weight, first_row};

use cell::Cell;
use layout::EMPTY_LAYOUT;
use refusal::Refusal;
use row::owners::{LIST_LIMIT, RowCell};
use walk::{How, Reading, TableData};

// A read that hands out cells as they are stored.
const PLAIN: How = How {
    reading: Reading::Plain,
};

// The first cell of the first column named WEIGHT, in either case, none at the end of the table, or what refuses the
// table, the column or the cell.
pub fn first_weight(header: &[u8], area: &[u8]) -> Result<Option<Cell>, Refusal>
    ensures { cell_reply result ≡ first_weight header.now area.now }
{
    let layout = bintable::parse(header, area)?;
    let column = layout::find_field_by_ttype(header, layout, b"WEIGHT").ok_or(Refusal::NoColumn)?;
    let mut cursor = table::select_fields(layout, area, &[column], true)?;
    row::next(&mut cursor, layout, area, PLAIN)
}

// The first row read into a list of 512 cells: its answer, the cursor after it, and cell k of the list. Of a table
// that is refused the empty one is read, and that read is refused: its answer is promised there too, so no `?`.
pub fn of_first_row(header: &[u8], area: &[u8], k: usize) -> RowCell
    ensures step { row_result result.stepped.cursor result.stepped.answer (first_row header.now area.now).list
        ≡ first_row header.now area.now }
    ensures cell { result.cell ≡ get_or (first_row header.now area.now).list k blank_cell }
{
    let layout = bintable::parse(header, area).unwrap_or(EMPTY_LAYOUT);
    let cursor = table::open(layout, area, true).unwrap_or(NO_CURSOR);
    row::owners::row_cell(
        layout,
        area,
        cursor,
        PLAIN,
        cell::blank_cell(),
        LIST_LIMIT,
        k,
    )
}

// The cursor that belongs to no table.
const NO_CURSOR: TableData = TableData {
    choice: 0,
    heap: false,
    row: 0,
    passed: 0,
    count: 0,
};
