// What a pass over the columns of a cursor's row asks, of the table and of each column: the cell read's pass, and
// the row read's of `row`.
ghost use Rattle.std.specs.Prelude.{◌≡◌, cond, ◌&&◌, ◌-◌, eqb};
ghost use Rattle.std.specs.Iterator.{at_most};
ghost use Rattle.tform.specs.Width.{count_ok, field_items};
ghost use Rattle.table.specs.Chosen.{NextChosen, all_chosen};
ghost use Rattle.table.specs.Scan.{sizes_of, next_chosen, ready, no_descriptor, plain_column};

use super::belong;
use layout::{BinTable, Column, NAXIS1_LIMIT, NAXIS2_LIMIT, PCOUNT_LIMIT, TFIELDS_LIMIT};
use tform::TFormType;
use walk::TableData;

// The sizes of a layout, all of it but its columns. Where `ready` takes the layout, a cell read of one column has 26 %
// more instructions, since it copies the layout; where it borrows it, one of 41 columns has 25 % more.
#[derive(Clone, Copy)]
pub struct Sizes {
    pub naxis1: u64,
    pub naxis2: u64,
    pub pcount: u64,
    pub theap: u64,
    pub tfields: usize,
}

impl From<&BinTable> for Sizes {
    ghost from_gives = { λ layout sizes. sizes ≡ sizes_of layout.now };

    fn from(layout: &BinTable) -> Self {
        Sizes {
            naxis1: layout.naxis1,
            naxis2: layout.naxis2,
            pcount: layout.pcount,
            theap: layout.theap,
            tfields: layout.tfields,
        }
    }
}

// What a pass needs: the limits and sums of a layout but for its columns, an area that is long enough, and a row
// and a choice of the table.
#[tactic(auto, unfolding(crate::specs::Scan::ready))]
pub fn ready(sizes: Sizes, len: u64, cursor: TableData) -> bool
    ensures { result ≡ ready sizes len cursor }
{
    if NAXIS1_LIMIT < sizes.naxis1
        || NAXIS2_LIMIT < sizes.naxis2
        || PCOUNT_LIMIT < sizes.pcount
        || TFIELDS_LIMIT < sizes.tfields
    {
        return false;
    }
    let main = sizes.naxis1 * sizes.naxis2;
    let end = main + sizes.pcount;
    main <= sizes.theap
        && sizes.theap <= end
        && end <= len
        && cursor.row < sizes.naxis2
        && belong::choice_ok(sizes.tfields, cursor.choice)
}

// The first column from c on that is chosen; 64 if there is none, or c where that is further on.
#[tactic(auto, using(crate::proofs::ToNext::next_by_zeros), unfolding(crate::specs::Scan::next_from))]
pub fn next_chosen(choice: u64, c: usize) -> usize
    ensures { result ≡ next_chosen choice c }
{
    if c < TFIELDS_LIMIT {
        let zeros = u64::trailing_zeros(choice >> c) as usize;
        if zeros < TFIELDS_LIMIT - c {
            return c + zeros;
        }
        return TFIELDS_LIMIT;
    }
    c
}

// The chosen columns among the first `tfields`, from `next` on.
#[derive(Clone, Copy)]
pub struct Chosen {
    pub choice: u64,
    pub tfields: usize,
    pub next: usize,
}

impl Iterator for Chosen {
    type Item = usize;

    ghost next_gives = { NextChosen };

    ghost remaining = { λ s. at_most (s.tfields - s.next) };

    fn next(&mut self) -> Option<usize> {
        let c = next_chosen(self.choice, self.next);
        if self.tfields <= c {
            return None;
        }
        self.next = c + 1;
        Some(c)
    }
}

// The chosen columns of a table.
pub fn chosen_columns(choice: u64, tfields: usize) -> Chosen
    ensures { result ≡ all_chosen choice tfields }
{
    Chosen {
        choice,
        tfields,
        next: 0,
    }
}

// Whether a column starts where the one before ends, and its count is within its limit. In the other order the cell
// read's pass is slower (docs/SPEED.md).
pub fn in_order(column: Column, at: u64) -> bool
    ensures { result ≡ (count_ok column.form column.count && eqb column.start at) }
{
    column.start == at && tform::count_ok(column.form, column.count)
}

// Whether a column holds no descriptor: it has items, or is P or Q of count 0.
fn no_descriptor(column: Column) -> bool
    ensures { result ≡ no_descriptor column.form column.count }
{
    matches!(column.form, TFormType::Items(_)) || column.count == 0
}

// Whether a column is in order and, if it is chosen, holds no descriptor.
pub fn plain_in_order(column: Column, at: u64, is_chosen: bool) -> bool
    ensures { result ≡ ((count_ok column.form column.count && eqb column.start at) && plain_column column is_chosen) }
{
    in_order(column, at) && (!is_chosen || no_descriptor(column))
}

// How many items a column has in a row, a descriptor being one: none if it is not chosen.
pub fn item_cells(column: Column, is_chosen: bool) -> u64
    ensures { result ≡ cond is_chosen (field_items column.form column.count) 0 }
{
    if is_chosen {
        tform::field_items(column.form, column.count)
    } else {
        0
    }
}
