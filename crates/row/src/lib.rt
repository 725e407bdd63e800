// Reading a row into a lent list, and the steps over a lent cursor. Layout, area and cursor are no struct, as in
// `table`.
#![tactic(auto)]

mod fill;
pub mod owners;
mod plan;

ghost use Rattle.std.specs.Prelude.{◌≡◌};
ghost use Rattle.walk.specs.declared.Stepped.{Stepped};
ghost use Rattle.walk.specs.Walk.{read_cell, read_row, seek};
ghost use Rattle.walk.specs.Step.{cursor_step, cell_result, row_result, seek_result};

use cell::Cell;
use layout::BinTable;
use refusal::Refusal;
use walk::{How, Reading, Stepped, TableData};

// The row read: what is left of the row to the front of the list, and the next row's start. The answer is the number
// of cells, none at the end, or a refusal: 10 as for every step, 13 at an array outside the heap, 14 if the list is
// too short. A refusal returns the cursor that it got and leaves the list as it was. `how` decides the cells' values
// alone.
#[tactic(auto, using(crate::proofs::Stored::plan_columns, crate::proofs::Stored::plan_fits, crate::proofs::Stored::plan_stored))]
pub fn read_row(
    layout: BinTable,
    area: &[u8],
    cursor: TableData,
    how: How,
    list: &mut [Cell],
) -> Stepped<Option<u64>>
    ensures { row_result result.cursor result.answer list.new
        ≡ cursor_step layout area.now cursor (read_row how list.old) }
{
    let plan = plan::row_plan(&layout, area, cursor, list.len());
    match how.reading {
        Reading::Plain => fill::fill_row::<false>(list, &layout.columns, area, plan),
        Reading::Scaled => fill::fill_row::<true>(list, &layout.columns, area, plan),
    }
    plan.stepped
}

// A step over a lent cursor.
fn lent<T: Copy, F: FnOnce(TableData) -> Stepped<T>>(
    cursor: &mut TableData,
    step: F,
) -> Result<T, Refusal>
    requires { F.pre step cursor.old }
    ensures { (out : Stepped T) × F.post step cursor.old out × (cursor.new ≡ out.cursor) × (result ≡ out.answer) }
{
    let out = step(*cursor);
    *cursor = out.cursor;
    out.answer
}

// The cell read over a lent cursor, which is moved for its owner.
pub fn next(
    cursor: &mut TableData,
    layout: BinTable,
    area: &[u8],
    how: How,
) -> Result<Option<Cell>, Refusal>
    ensures { cell_result cursor.new result ≡ cursor_step layout area.now cursor.old (read_cell how) }
{
    lent(cursor, |own| table::next(layout, area, own, how))
}

// The row read over a lent cursor.
pub fn next_row(
    cursor: &mut TableData,
    layout: BinTable,
    area: &[u8],
    how: How,
    list: &mut [Cell],
) -> Result<Option<u64>, Refusal>
    ensures { row_result cursor.new result list.new ≡ cursor_step layout area.now cursor.old (read_row how list.old) }
{
    // Not by `lent`: of the list that the closure would borrow nothing is known after the call.
    let out = read_row(layout, area, *cursor, how, list);
    *cursor = out.cursor;
    out.answer
}

// The seek over a lent cursor.
pub fn seek_to_row(
    cursor: &mut TableData,
    layout: BinTable,
    area: &[u8],
    row: usize,
) -> Result<(), Refusal>
    ensures { seek_result cursor.new result ≡ cursor_step layout area.now cursor.old (seek row) }
{
    lent(cursor, |own| table::seek_to_row(layout, area, own, row))
}
