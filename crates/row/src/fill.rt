// The loops that store a row's cells, by its plan.
ghost use Rattle.std.specs.Prelude.{◌≡◌, ◌+◌, ◌≤◌, length};
ghost use Rattle.walk.specs.Readings.{reading_by, value_as};
ghost use Rattle.row.specs.Plan.{item_cell, planned_cell, ItemsFit, PlanOk, stored_at, filled, RowFits};

use super::plan;
use super::plan::{FieldPlan, RowPlan};
use cell::{Cell, DataValue, Field};
use layout::{Column, Scaling, TFIELDS_LIMIT};
use tform::VariableArrayTy;

// A stored value as it is handed out. The reading is no value here but a constant, so that the loops of the plain
// reading are compiled without the other (docs/SPEED.md).
fn value_as<const SCALED: bool>(scaling: Scaling, stored: DataValue) -> DataValue
    ensures { result ≡ value_as (reading_by SCALED) scaling stored }
{
    if SCALED {
        return cell::scaled_value(scaling, stored);
    }
    stored
}

// The items of a field, which lie from byte `start` on, into the list from `at` on.
fn fill_items<const SCALED: bool>(
    list: &mut [Cell],
    at: usize,
    area: &[u8],
    plan: FieldPlan,
    ty: VariableArrayTy,
    start: u64,
)
    requires { (at + plan.n ≤ length list.old) × ItemsFit ty start plan.first plan.n }
    ensures { list.new ≡ stored_at (item_cell (reading_by SCALED) area.now plan ty start) at plan.n list.old }
{
    for i in 0..plan.n {
        let idx = plan.first + i as u64;
        let stored = cell::read_item(area, start + idx * tform::width(ty), ty, plan.column);
        list[at + i] = Cell {
            row: plan.row,
            column: plan.c,
            idx,
            value: value_as::<SCALED>(plan.column.scaling, stored),
        };
    }
}

// The cells of a field, into the list from `at` on: its items, or its descriptor if it is not passed. A row read
// with an array outside the heap is refused, so that none is stored.
fn fill_field<const SCALED: bool>(list: &mut [Cell], at: usize, area: &[u8], plan: FieldPlan)
    requires { (at + plan.n ≤ length list.old) × PlanOk plan }
    ensures { list.new ≡ stored_at (planned_cell (reading_by SCALED) area.now plan) at plan.n list.old }
{
    match plan.field {
        Field::Items {
            ty,
            at: start,
            n: _,
        } => fill_items::<SCALED>(list, at, area, plan, ty, start),
        Field::Descriptor(stored) => {
            if plan.n == 1 {
                list[at] = Cell {
                    row: plan.row,
                    column: plan.c,
                    idx: plan.first,
                    value: value_as::<SCALED>(plan.column.scaling, stored),
                };
            }
        }
        Field::OutsideHeap => {}
    }
}

// The cells of a row, chosen field by chosen field, into the front of the list. `tfields ≤ 64` is no ghost field:
// anybody can make a layout.
pub fn fill_row<const SCALED: bool>(
    list: &mut [Cell],
    columns: &[Column; TFIELDS_LIMIT],
    area: &[u8],
    plan: RowPlan,
)
    requires { (plan.tfields ≤ 64)
        × RowFits columns.now area.now plan 0 plan.tfields plan.cursor.passed 0 (length list.old) }
    ensures { list.new
        ≡ filled columns.now area.now plan (reading_by SCALED) 0 plan.tfields plan.cursor.passed 0 list.old }
{
    let mut at = 0;
    let mut skip = plan.cursor.passed;
    for c in table::pass::chosen_columns(plan.cursor.choice, plan.tfields) {
        let column = columns[c];
        let planned = plan::field_plan(area, plan, column, c, skip);
        fill_field::<SCALED>(list, at, area, planned);
        at += planned.n;
        skip = planned.skip;
    }
}
