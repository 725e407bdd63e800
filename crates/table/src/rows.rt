// The plain list of a row: how many entries it has, the entry at an index, and the next entry from a place on.
ghost use Rattle.std.specs.Prelude.{ℕ, ◌≡◌, true, cond, ◌+◌, ◌-◌, ◌*◌, ◌≤◌, ◌<◌, length, get_or};
ghost use Rattle.layout.specs.Layout.{data_limit};
ghost use Rattle.cell.specs.Field.{field, size_of, ItemsInside};
ghost use Rattle.walk.specs.declared.Entry.TheVariants.{OutsideHeap};
ghost use Rattle.walk.specs.Plain.{column_of, entry_in, row_entries};
ghost use Rattle.walk.specs.Walk.{next};
ghost use Rattle.walk.specs.Step.{fits};
ghost use Rattle.table.specs.NextPlace.{next_place};
ghost use Rattle.table.specs.Scan.{heap_of, any_items};

use super::pass;
use cell::{Cell, Field, Heap};
use layout::{BinTable, Column};
use tform::TFormType;
use walk::{Entry, TableData};

// The place of the next entry, and how many entries its row has.
#[derive(Clone, Copy)]
pub struct NextPlace {
    pub row: u64,
    pub passed: u64,
    pub size: u64,
}

// Where a row starts, and the heap that its descriptors name.
#[derive(Clone, Copy)]
pub struct RowSpan {
    pub start: u64,
    pub heap: Heap,
}

// The cursor's row, which the table has, where the layout and the area belong together.
#[derive(Clone, Copy)]
pub struct TableRow<'a> {
    pub layout: &'a BinTable,
    pub area: &'a [u8],
    pub cursor: TableData,
    ghost fit: { fits layout.now area.now ≡ true },
    ghost inside: { cursor.row < layout.now.naxis2 },
}

impl TableRow<'_> {
    ghost use Rattle.table.specs.TableRow.{entries_of};

    // The place of the row, in which its columns lie.
    #[tactic(auto, using(walk::proofs::Inside::fits_layout, walk::proofs::Inside::column_in_row, walk::proofs::Inside::row_in_main, layout::proofs::Sizes::data_bound))]
    pub fn span(&self) -> RowSpan
        ensures start { result.start ≡ self.now.cursor.row * self.now.layout.now.naxis1 }
        ensures heap { result.heap ≡ heap_of self.now.layout.now self.now.cursor.heap }
        ensures few { self.now.layout.now.tfields ≤ 64 }
        ensures columns { (c : ℕ) → c < self.now.layout.now.tfields
            → result.start + (column_of self.now.layout.now c).start ≤ data_limit }
    {
        let main = self.layout.naxis1 * self.layout.naxis2;
        RowSpan {
            start: self.cursor.row * self.layout.naxis1,
            heap: Heap {
                followed: self.cursor.heap,
                start: self.layout.theap,
                end: main + self.layout.pcount,
            },
        }
    }

    // How many entries the row has.
    pub fn size(&self) -> u64
        ensures { result ≡ length (entries_of self.now) }
    {
        let RowSpan { start, heap } = self.span();
        let mut total: u64 = 0;
        for c in pass::chosen_columns(self.cursor.choice, self.layout.tfields) {
            let column = self.layout.columns[c];
            total += field_entries(self.area, start + column.start, column, &heap);
        }
        total
    }

    // The entry at the cursor's place.
    pub(crate) fn entry(&self) -> Entry
        requires { self.now.cursor.passed < length (entries_of self.now) }
        ensures { result ≡ get_or (entries_of self.now) self.now.cursor.passed (OutsideHeap 0) }
    {
        let RowSpan { start, heap } = self.span();
        let mut left = self.cursor.passed;
        for c in pass::chosen_columns(self.cursor.choice, self.layout.tfields) {
            let column = self.layout.columns[c];
            let field = cell::read_field(self.area, start + column.start, column, &heap);
            let size = cell::field_size(field);
            if left < size {
                return entry_in(self.area, column, self.cursor.row, c, field, left);
            }
            left -= size;
        }
        // Never reached: the place is one of the row.
        Entry::OutsideHeap { column: 0 }
    }
}

// How many entries the field of a column at a place has. Where `column_size` reads the field itself, each column is
// copied for it, and cell reads of 41 columns take 31 % more instructions.
fn field_entries(area: &[u8], at: u64, column: Column, heap: &Heap) -> u64
    ensures { result ≡ size_of (field area.now at column heap.now.followed heap.now.start heap.now.end) }
{
    cell::field_size(cell::read_field(area, at, column, heap))
}

// How many entries the field of a column at a place has: none if the column is not chosen. Only a descriptor has to be
// read for it.
#[tactic(auto, unfolding(cell::specs::Field::field))]
pub fn column_size(area: &[u8], at: u64, column: Column, is_chosen: bool, heap: &Heap) -> u64
    ensures { result ≡ cond is_chosen
        (size_of (field area.now at column heap.now.followed heap.now.start heap.now.end)) 0 }
{
    if !is_chosen {
        return 0;
    }
    match column.form {
        TFormType::Items(ty) => tform::item_count(ty, column.count as u64),
        TFormType::P(_) | TFormType::Q(_) => field_entries(area, at, column, heap),
    }
}

// The entry at an index of the field of column c in a row.
fn entry_in(area: &[u8], column: Column, row: u64, c: usize, field: Field, idx: u64) -> Entry
    requires { (idx < size_of field) × ItemsInside data_limit field }
    ensures { result ≡ entry_in column area.now row c field idx }
{
    match field {
        Field::Items { ty, at, n: _ } => {
            let value = cell::read_item(area, at + idx * tform::width(ty), ty, column);
            Entry::Cell(Cell {
                row,
                column: c,
                idx,
                value,
            })
        }
        Field::Descriptor(value) => Entry::Cell(Cell {
            row,
            column: c,
            idx: 0,
            value,
        }),
        Field::OutsideHeap => Entry::OutsideHeap { column: c },
    }
}

// The entry at an index of the field of column c, which lies at a place. Seven values and no struct: the cell read, its
// only caller, has them apart, and `entry_in` is the part that the long way shares.
pub fn entry_of(
    area: &[u8],
    at: u64,
    column: Column,
    cursor: TableData,
    c: usize,
    idx: u64,
    heap: &Heap,
) -> Entry
    requires { (idx < size_of (field area.now at column heap.now.followed heap.now.start heap.now.end))
        × ItemsInside data_limit (field area.now at column heap.now.followed heap.now.start heap.now.end) }
    ensures { result ≡ entry_in column area.now cursor.row c
        (field area.now at column heap.now.followed heap.now.start heap.now.end) idx }
{
    let field = cell::read_field(area, at, column, heap);
    entry_in(area, column, cursor.row, c, field, idx)
}

// Whether a chosen column holds an item or a descriptor. If none does, no row has an entry. `tfields ≤ 64` is no ghost
// field: anybody can make a layout.
fn any_items(layout: BinTable, choice: u64) -> bool
    requires { layout.tfields ≤ 64 }
    ensures { result ≡ any_items layout choice 0 layout.tfields }
{
    pass::chosen_columns(choice, layout.tfields).any(
        |c|
            requires { c < 64 }
        {
            let column = layout.columns[c];
            0 < tform::field_items(column.form, column.count)
        },
    )
}

// The next entry from the cursor's place on, passing rows that have none left.
pub fn find_entry(layout: BinTable, area: &[u8], cursor: TableData) -> Option<NextPlace>
    requires { fits layout area.now ≡ true }
    ensures { result ≡ next_place (row_entries layout area.now cursor.choice cursor.heap)
        (next (row_entries layout area.now cursor.choice cursor.heap) layout.naxis2 (layout.naxis2 - cursor.row)
        cursor.row cursor.passed) }
{
    if !any_items(layout, cursor.choice) {
        return None;
    }
    let mut passed = cursor.passed;
    for row in cursor.row..layout.naxis2 {
        let here = TableRow {
            layout: &layout,
            area,
            cursor: TableData { row, ..cursor },
        };
        let size = here.size();
        if passed < size {
            return Some(NextPlace { row, passed, size });
        }
        passed = 0;
    }
    None
}
