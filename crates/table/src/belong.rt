// Whether a layout, a data area and a cursor, which anybody can make, belong together.
ghost use Rattle.std.specs.Prelude.{◌≡◌, true, ◌&&◌, ◌≤◌, ◌^◌, ltb};
ghost use Rattle.walk.specs.Plain.{row_entries};
ghost use Rattle.walk.specs.Walk.{place_ok};
ghost use Rattle.walk.specs.Step.{fits, belongs};

use super::rows::TableRow;
use layout::{BinTable, TFIELDS_LIMIT};
use walk::TableData;

// The layout keeps every limit and sum, and the data area is long enough.
pub fn fits(layout: BinTable, area: &[u8]) -> bool
    ensures { result ≡ fits layout area.now }
{
    fits_of(&layout, area)
}

// The same over a layout that is lent.
#[tactic(auto, using(layout::proofs::Sizes::data_bound), unfolding(walk::specs::Step::fits))]
pub fn fits_of(layout: &BinTable, area: &[u8]) -> bool
    ensures { result ≡ fits layout.now area.now }
{
    layout::layout_ok_of(layout)
        && layout.naxis1 * layout.naxis2 + layout.pcount <= area.len() as u64
}

// The choice is one or more of the columns. In one expression with `||` the cell read takes 3 % more instructions.
// `tfields ≤ 64` is no ghost field: anybody can make a layout.
#[tactic(auto, using(walk::proofs::Choice::shift_test))]
pub fn choice_ok(tfields: usize, choice: u64) -> bool
    requires { tfields ≤ 64 }
    ensures { result ≡ (ltb 0 choice && ltb choice (2 ^ tfields)) }
{
    if choice == 0 {
        return false;
    }
    if tfields == TFIELDS_LIMIT {
        return true;
    }
    choice >> tfields == 0
}

// The place is the start of a row, or an entry of one, or the end.
#[tactic(auto, unfolding(walk::specs::Walk::place_ok))]
fn place_ok(layout: &BinTable, area: &[u8], cursor: TableData) -> bool
    requires { fits layout.now area.now ≡ true }
    ensures { result ≡ place_ok (row_entries layout.now area.now cursor.choice cursor.heap) layout.now.naxis2
        cursor.row cursor.passed }
{
    if cursor.row < layout.naxis2 {
        let here = TableRow {
            layout,
            area,
            cursor,
        };
        return cursor.passed == 0 || cursor.passed < here.size();
    }
    cursor.row == layout.naxis2 && cursor.passed == 0
}

// Whether a layout, a data area and a cursor belong together, which the row read of `row` asks first. If they do
// not, every step is refused with 10.
pub fn belongs(layout: BinTable, area: &[u8], cursor: TableData) -> bool
    ensures { result ≡ belongs layout area.now cursor }
{
    belongs_of(&layout, area, cursor)
}

// The same over a layout that is lent.
#[tactic(auto, using(walk::proofs::Inside::fits_limits), unfolding(walk::specs::Step::belongs, walk::specs::Step::choice_ok))]
pub fn belongs_of(layout: &BinTable, area: &[u8], cursor: TableData) -> bool
    ensures { result ≡ belongs layout.now area.now cursor }
{
    fits_of(layout, area)
        && choice_ok(layout.tfields, cursor.choice)
        && place_ok(layout, area, cursor)
}
