// What a row read does, decided before it stores a cell: its answer, the cursor after it, and which cells each
// field gives.
ghost use Rattle.std.specs.Prelude.{◌≡◌, true, ◌+◌, ◌<◌, ◌^◌};
ghost use Rattle.layout.specs.Layout.{naxis2_limit};
ghost use Rattle.cell.specs.Field.{field};
ghost use Rattle.walk.specs.Plain.{chosen, row_entries};
ghost use Rattle.walk.specs.Walk.{rest};
ghost use Rattle.walk.specs.Step.{state_of};
ghost use Rattle.row.specs.Plan.{plan_of, field_plan, is_outside, left_of, plan_for, no_plan, next_row};
ghost use Rattle.row.specs.Plan.{rest_plan, row_plan};

use cell::{Field, Heap};
use layout::{BinTable, Column};
use refusal::Refusal;
use table::pass::Sizes;
use table::{RowSpan, TableRow};
use tform::TFormType;
use walk::{Stepped, TableData};

// The plan of a row: how many columns are gone over, none at the end and at a refusal; the cursor that it starts from;
// where the row starts, and the heap; and what the row read returns.
#[derive(Clone, Copy)]
pub struct RowPlan {
    pub tfields: usize,
    pub cursor: TableData,
    pub span: RowSpan,
    pub stepped: Stepped<Option<u64>>,
}

// The plan of a field: n cells from the index `first` on, of what the field stands for. Of the later fields `skip`
// entries are still to be passed.
#[derive(Clone, Copy)]
pub struct FieldPlan {
    pub row: u64,
    pub c: usize,
    pub column: Column,
    pub field: Field,
    pub first: u64,
    pub n: usize,
    pub skip: u64,
}

// The cells of a field that are left after the first `skip` entries.
fn plan_of(row: u64, c: usize, column: Column, skip: u64, field: Field) -> FieldPlan
    ensures { result ≡ plan_of row c column skip field }
{
    let size = cell::field_size(field);
    FieldPlan {
        row,
        c,
        column,
        field,
        first: skip,
        n: size.saturating_sub(skip) as usize,
        skip: skip.saturating_sub(size),
    }
}

// The field of a column of the row at a place. It borrows a heap of its own: a borrow of the span's keeps the plan in
// memory, and row reads of three columns take 2.8 % more instructions.
fn field_at(area: &[u8], span: RowSpan, column: Column) -> Field
    requires { span.start + column.start < 2 ^ 64 }
    ensures { result ≡ field area.now (span.start + column.start) column span.heap.followed span.heap.start
        span.heap.end }
{
    let heap = span.heap;
    cell::read_field(area, span.start + column.start, column, &heap)
}

// The plan of the field of column c, which is chosen, where `skip` entries are still to be passed. The loop that
// stores is its only caller, so that it is compiled into it (docs/SPEED.md).
#[tactic(auto, unfolding(crate::specs::Plan::field_plan, cell::specs::Field::field))]
pub fn field_plan(area: &[u8], plan: RowPlan, column: Column, c: usize, skip: u64) -> FieldPlan
    requires { (chosen plan.cursor.choice c ≡ true) × (plan.span.start + column.start < 2 ^ 64) }
    ensures { result ≡ field_plan area.now plan column c skip }
{
    let field = match column.form {
        TFormType::Items(ty) => Field::Items {
            ty,
            at: plan.span.start + column.start,
            n: tform::item_count(ty, column.count as u64),
        },
        TFormType::P(_) | TFormType::Q(_) => field_at(area, plan.span, column),
    };
    plan_of(plan.cursor.row, c, column, skip, field)
}

// Whether a field that has an entry left is an array outside the heap.
fn is_outside(plan: FieldPlan) -> bool
    ensures { result ≡ is_outside plan }
{
    matches!(plan.field, Field::OutsideHeap) && 0 < plan.n
}

// The plan of a row that goes over all columns.
fn plan_for(row: &TableRow, stepped: Stepped<Option<u64>>) -> RowPlan
    ensures { result ≡ plan_for row.now.layout.now row.now.cursor stepped }
{
    RowPlan {
        tfields: row.layout.tfields,
        cursor: row.cursor,
        span: row.span(),
        stepped,
    }
}

// The plan that stores nothing and leaves the cursor where it is. No Option: the loop that stores goes over no column
// then.
fn no_plan(cursor: TableData, answer: Result<Option<u64>, Refusal>) -> RowPlan
    ensures { result ≡ no_plan cursor answer }
{
    RowPlan {
        tfields: 0,
        cursor,
        span: RowSpan {
            start: 0,
            heap: Heap {
                followed: false,
                start: 0,
                end: 0,
            },
        },
        stepped: Stepped { cursor, answer },
    }
}

// What is left of the cursor's row.
fn rest_of(row: &TableRow) -> Result<u64, Refusal>
    ensures { result
        ≡ left_of (rest (row_entries row.now.layout.now row.now.area.now row.now.cursor.choice row.now.cursor.heap)
        row.now.layout.now.naxis2 (state_of row.now.cursor)) }
{
    let span = row.span();
    let mut total: u64 = 0;
    let mut skip = row.cursor.passed;
    for c in table::pass::chosen_columns(row.cursor.choice, row.layout.tfields) {
        let column = row.layout.columns[c];
        let field = field_at(row.area, span, column);
        let planned = plan_of(row.cursor.row, c, column, skip, field);
        if is_outside(planned) {
            return Err(Refusal::ArrayOutsideHeap { column: c });
        }
        total += planned.n as u64;
        skip = planned.skip;
    }
    Ok(total)
}

// The cursor at the start of the next row, with n more cells counted.
fn at_next_row(cursor: TableData, n: u64) -> TableData
    requires { cursor.row < naxis2_limit }
    ensures { result ≡ next_row cursor n }
{
    TableData {
        row: cursor.row + 1,
        passed: 0,
        count: walk::counted(cursor.count, n),
        ..cursor
    }
}

// The plan for what is left of the cursor's row and a list of `room` cells.
fn rest_plan(row: &TableRow, rest: Result<u64, Refusal>, room: usize) -> RowPlan
    ensures { result ≡ rest_plan row.now.layout.now row.now.cursor room rest }
{
    match rest {
        Err(refusal) => no_plan(row.cursor, Err(refusal)),
        Ok(n) => {
            if (room as u64) < n {
                return no_plan(row.cursor, Err(Refusal::ShortList { needed: n }));
            }
            let stepped = Stepped {
                cursor: at_next_row(row.cursor, n),
                answer: Ok(Some(n)),
            };
            plan_for(row, stepped)
        }
    }
}

// The plan of a row read, whatever the row, the place and the cursor are.
#[tactic(auto, using(walk::proofs::Steps::belongs_fits, walk::proofs::Inside::fits_layout), unfolding(crate::specs::Plan::row_plan))]
fn any_plan(layout: &BinTable, area: &[u8], cursor: TableData, room: usize) -> RowPlan
    ensures { result ≡ row_plan layout.now area.now cursor room }
{
    if table::belongs(*layout, area, cursor) {
        if cursor.row < layout.naxis2 {
            let row = TableRow {
                layout,
                area,
                cursor,
            };
            return rest_plan(&row, rest_of(&row), room);
        }
        return no_plan(cursor, Ok(None));
    }
    no_plan(cursor, Err(Refusal::Mismatch))
}

// The plan of a row read into a list of `room` cells. One pass over the columns plans a row without descriptors
// from its start; all else is left to `any_plan`, by which alone a row of 41 columns takes 1.4 times the instructions.
pub fn row_plan(layout: &BinTable, area: &[u8], cursor: TableData, room: usize) -> RowPlan
    ensures { result ≡ row_plan layout.now area.now cursor room }
{
    if cursor.passed != 0 {
        return any_plan(layout, area, cursor, room);
    }
    if !table::pass::ready(Sizes::from(layout), area.len() as u64, cursor) {
        return any_plan(layout, area, cursor, room);
    }
    let mut at: u64 = 0;
    let mut cells: u64 = 0;
    for c in 0..layout.tfields {
        let column = layout.columns[c];
        let is_chosen = table::chosen(cursor.choice, c);
        if !table::pass::plain_in_order(column, at, is_chosen) {
            return any_plan(layout, area, cursor, room);
        }
        at += tform::num_bytes_field(column.form, column.count);
        cells += table::pass::item_cells(column, is_chosen);
    }
    if at == layout.naxis1 {
        let row = TableRow {
            layout,
            area,
            cursor,
        };
        return rest_plan(&row, Ok(cells), room);
    }
    any_plan(layout, area, cursor, room)
}
