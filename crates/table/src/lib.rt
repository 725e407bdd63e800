// Reading a table by a cursor: opening, cell reads and seeks. The cursor goes in by value and comes back beside the
// answer. Layout, area and cursor are no struct: a cursor is plain data that may be brought to any table, and each call
// refuses what does not belong together.
#![tactic(auto)]

mod belong;
mod choice;
pub mod pass;
mod rows;
mod scan;
mod step;

ghost use Rattle.std.specs.Prelude.{ℕ, Bool, ◌≡◌, ◌<◌};
ghost use Rattle.walk.specs.Walk.{read_cell, seek};
ghost use Rattle.walk.specs.Step.{Selection, wanted as wanted_by, all_columns, listed, open_with, opening_of};
ghost use Rattle.walk.specs.Step.{cursor_step, cell_result, seek_result};

pub use belong::{belongs, fits};
use cell::{Cell, Heap};
pub use choice::chosen;
use layout::BinTable;
use pass::Sizes;
use refusal::Refusal;
use rows::NextPlace;
pub use rows::{RowSpan, TableRow};
use scan::Scan;
use walk::{How, Stepped, TableData};

// A cursor on the columns that are wanted, at the start of the table.
fn open_on<F: Fn(usize) -> bool>(
    layout: BinTable,
    area: &[u8],
    wanted: F,
    heap: bool,
) -> Result<TableData, Refusal>
    requires { F.IsAlwaysCallable wanted }
    ensures { (s : Selection) → ((c : ℕ) → (is : Bool) → c < 64 → F.post wanted c is → is ≡ wanted_by s c)
        → opening_of result ≡ open_with layout area.now s heap }
{
    if !belong::fits(layout, area) {
        return Err(Refusal::Mismatch);
    }
    let choice = choice::columns(layout.tfields, wanted);
    if choice == 0 {
        return Err(Refusal::NoColumn);
    }
    Ok(TableData {
        choice,
        heap,
        row: 0,
        passed: 0,
        count: 0,
    })
}

// A cursor on all columns, at the start of the table. Refused with 10 if the layout and the area do not belong
// together, then with 11 if there is no column.
pub fn open(layout: BinTable, area: &[u8], heap: bool) -> Result<TableData, Refusal>
    ensures { opening_of result ≡ open_with layout area.now all_columns heap }
{
    open_on(layout, area, |_| true, heap)
}

// A cursor on the columns that are listed by their indexes from 0. Unknown ones are dropped and a repeated one
// counts once; the order is always that of the table. Refused as `open` is.
pub fn select_fields(
    layout: BinTable,
    area: &[u8],
    cols: &[usize],
    heap: bool,
) -> Result<TableData, Refusal>
    ensures { opening_of result ≡ open_with layout area.now (listed cols.now) heap }
{
    open_on(layout, area, |c| cols.contains(&c), heap)
}

// The cell read: the next cell, none at the end, or refusal 13 at an array outside the heap. Refused with 10 first, if
// the cursor does not belong to the layout and the area. A refusal returns the cursor that it got. `how` decides the
// cell's value alone.
pub fn next(layout: BinTable, area: &[u8], cursor: TableData, how: How) -> Stepped<Option<Cell>>
    ensures { cell_result result.cursor result.answer ≡ cursor_step layout area.now cursor (read_cell how) }
{
    next_of(&layout, area, cursor, how)
}

// The same over a layout that is lent: a caller that reads cell after cell does not copy it for each.
pub fn next_of(layout: &BinTable, area: &[u8], cursor: TableData, how: How) -> Stepped<Option<Cell>>
    ensures { cell_result result.cursor result.answer ≡ cursor_step layout.now area.now cursor (read_cell how) }
{
    // One pass over the columns gives the entry of the cursor's row. Where it gives none, the calls of `step` tell
    // why; by these alone a cell read of 41 columns takes 4.9 times the instructions.
    if pass::ready(Sizes::from(layout), area.len() as u64, cursor) {
        let start = cursor.row * layout.naxis1;
        // Not by TableRow, which asks for what the pass has yet to find.
        let heap = Heap {
            followed: cursor.heap,
            start: layout.theap,
            end: layout.naxis1 * layout.naxis2 + layout.pcount,
        };
        let mut scan = Scan {
            at: 0,
            size: 0,
            found: None,
        };
        for c in 0..layout.tfields {
            let column = layout.columns[c];
            if !pass::in_order(column, scan.at) {
                return step::next(layout, area, cursor, how);
            }
            let is_chosen = chosen(cursor.choice, c);
            let size = rows::column_size(area, start + scan.at, column, is_chosen, &heap);
            scan = scan::after(scan, column, c, size, cursor.passed);
        }
        if let Some(found) = scan.found {
            if scan.at == layout.naxis1 {
                let c = found.column;
                let column = layout.columns[c];
                let at = start + column.start;
                let entry = rows::entry_of(area, at, column, cursor, c, found.idx, &heap);
                let place = NextPlace {
                    row: cursor.row,
                    passed: cursor.passed,
                    size: scan.size,
                };
                return step::read_entry(cursor, place, walk::entry_by(how, column.scaling, entry));
            }
        }
    }
    step::next(layout, area, cursor, how)
}

// The seek: to the start of a row, or refusal 12 if there is no such row. Refused with 10 first, as `next` is.
pub fn seek_to_row(layout: BinTable, area: &[u8], cursor: TableData, row: usize) -> Stepped<()>
    ensures { seek_result result.cursor result.answer ≡ cursor_step layout area.now cursor (seek row) }
{
    seek_to_row_of(&layout, area, cursor, row)
}

// The same over a layout that is lent.
#[tactic(auto, using(walk::proofs::Steps::step_unfit, walk::proofs::Steps::seek_at))]
pub fn seek_to_row_of(layout: &BinTable, area: &[u8], cursor: TableData, row: usize) -> Stepped<()>
    ensures { seek_result result.cursor result.answer ≡ cursor_step layout.now area.now cursor (seek row) }
{
    if belong::belongs_of(layout, area, cursor) {
        return step::seek(layout.naxis2, cursor, row);
    }
    Stepped {
        cursor,
        answer: Err(Refusal::Mismatch),
    }
}
