// The steps of a cursor that belongs.
ghost use Rattle.std.specs.Prelude.{◌≡◌, true, ◌<◌};
ghost use Rattle.layout.specs.Layout.{naxis2_limit};
ghost use Rattle.walk.specs.Scaled.{plain};
ghost use Rattle.walk.specs.Walk.{read_cell, placed, grown, pass, entry_outcome, seek_outcome};
ghost use Rattle.walk.specs.Step.{belongs, state_of, cursor_at, with_cursor, cursor_step, cell_result, seek_result};

use super::rows::{NextPlace, TableRow};
use super::{belong, rows};
use cell::Cell;
use layout::BinTable;
use refusal::Refusal;
use walk::{Entry, How, Stepped, TableData};

// The cursor at another place.
fn placed(cursor: TableData, row: u64, passed: u64) -> TableData
    ensures { result ≡ cursor_at cursor.choice cursor.heap (placed (state_of cursor) row passed) }
{
    TableData {
        row,
        passed,
        ..cursor
    }
}

// The cursor with one more cell counted.
fn grown(cursor: TableData) -> TableData
    ensures { result ≡ cursor_at cursor.choice cursor.heap (grown (state_of cursor) (read_cell plain) 1) }
{
    TableData {
        count: walk::counted(cursor.count, 1),
        ..cursor
    }
}

// The cursor after the entry at a place.
fn pass(cursor: TableData, place: NextPlace) -> TableData
    requires { (place.row < naxis2_limit) × (place.passed < place.size) }
    ensures { result ≡ cursor_at cursor.choice cursor.heap (pass (state_of cursor) place.size place.row place.passed) }
{
    if place.passed + 1 < place.size {
        return placed(cursor, place.row, place.passed + 1);
    }
    placed(cursor, place.row + 1, 0)
}

// A cell read at the entry at a place, as it is handed out. A read of either reading counts alike.
pub fn read_entry(cursor: TableData, place: NextPlace, entry: Entry) -> Stepped<Option<Cell>>
    requires { (place.row < naxis2_limit) × (place.passed < place.size) }
    ensures { cell_result result.cursor result.answer ≡ with_cursor cursor.choice cursor.heap
        (entry_outcome (state_of cursor) plain place.size place.row place.passed entry) }
{
    match entry {
        Entry::Cell(cell) => Stepped {
            cursor: pass(grown(cursor), place),
            answer: Ok(Some(cell)),
        },
        Entry::OutsideHeap { column } => Stepped {
            cursor,
            answer: Err(Refusal::ArrayOutsideHeap { column }),
        },
    }
}

// A cell read of a cursor that belongs.
fn read_cell(layout: &BinTable, area: &[u8], cursor: TableData, how: How) -> Stepped<Option<Cell>>
    requires { belongs layout.now area.now cursor ≡ true }
    ensures { cell_result result.cursor result.answer ≡ cursor_step layout.now area.now cursor (read_cell how) }
{
    let Some(place) = rows::find_entry(*layout, area, cursor) else {
        return Stepped {
            cursor: placed(cursor, layout.naxis2, 0),
            answer: Ok(None),
        };
    };
    let here = TableRow {
        layout,
        area,
        cursor: placed(cursor, place.row, place.passed),
    };
    read_entry(cursor, place, walk::entry_as(layout, how, here.entry()))
}

// A cell read: refused with 10 if the cursor does not belong.
#[tactic(auto, using(walk::proofs::Steps::step_unfit))]
pub fn next(layout: &BinTable, area: &[u8], cursor: TableData, how: How) -> Stepped<Option<Cell>>
    ensures { cell_result result.cursor result.answer ≡ cursor_step layout.now area.now cursor (read_cell how) }
{
    if belong::belongs_of(layout, area, cursor) {
        return read_cell(layout, area, cursor, how);
    }
    Stepped {
        cursor,
        answer: Err(Refusal::Mismatch),
    }
}

// A seek of a cursor that belongs to a table of naxis2 rows.
pub fn seek(naxis2: u64, cursor: TableData, row: usize) -> Stepped<()>
    ensures { seek_result result.cursor result.answer
        ≡ with_cursor cursor.choice cursor.heap (seek_outcome naxis2 (state_of cursor) row) }
{
    if (row as u64) < naxis2 {
        return Stepped {
            cursor: placed(cursor, row as u64, 0),
            answer: Ok(()),
        };
    }
    Stepped {
        cursor,
        answer: Err(Refusal::NoSuchRow { row }),
    }
}
