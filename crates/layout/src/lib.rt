// The layout of a binary table as a plain value: its limits and sums, and the names of its columns.
#![tactic(auto)]

mod limits;
mod ttype;

ghost use Rattle.std.specs.Prelude.{◌≡◌};
ghost use Rattle.layout.specs.Layout.{columns_of, layout_ok};
ghost use Rattle.layout.specs.Names.{column_name, find_name};

use tform::{TFormType, VariableArrayTy};

// The limits of this reader.
pub const NAXIS1_LIMIT: u64 = 1048576;

pub const NAXIS2_LIMIT: u64 = 16777216;

pub const PCOUNT_LIMIT: u64 = 2147483647;

// Each column has a slot for each of its names.
pub const TFIELDS_LIMIT: usize = keyword::COLUMN_SLOTS;

// Where a column's name stands in the header, between the quotes, trailing spaces off. No slice, since a layout is a
// plain value that outlives the header.
#[derive(Clone, Copy)]
pub struct Name {
    pub start: u32,
    pub len: u32,
}

// The factor (TSCALn) and the zero (TZEROn) of a column's scaled values.
#[derive(Clone, Copy)]
pub struct Scaling {
    pub factor: f64,
    pub zero: f64,
}

// The stored number that stands for a missing value in a column (TNULLn): none, one of 64 bits with a sign, or one that
// these do not hold, which no item is.
#[derive(Clone, Copy)]
pub enum Null {
    NotGiven,
    Number(i64),
    OutOfRange,
}

// `count` is the number before the form's letter, `start` the column's first byte within a row. `scaling_given` tells
// whether TSCALn or TZEROn stands in the header: a column with neither has a scaling too.
#[derive(Clone, Copy)]
pub struct Column {
    pub form: TFormType,
    pub count: u32,
    pub start: u64,
    pub name: Option<Name>,
    pub scaling_given: bool,
    pub scaling: Scaling,
    pub null: Null,
}

// The layout of a table. Its columns are the first `tfields` of `columns`, since the library has no heap.
#[derive(Clone, Copy)]
pub struct BinTable {
    pub naxis1: u64,
    pub naxis2: u64,
    pub pcount: u64,
    pub theap: u64,
    pub tfields: usize,
    pub columns: [Column; TFIELDS_LIMIT],
}

// The scaling of a column with neither keyword.
pub const NO_SCALING: Scaling = Scaling {
    factor: 1.0,
    zero: 0.0,
};

// No column, and the layout that has none. Its scaling is that of the list's default element, in which floats are no
// numbers.
pub const NO_COLUMN: Column = Column {
    form: TFormType::Items(VariableArrayTy::L),
    count: 0,
    start: 0,
    name: None,
    scaling_given: false,
    scaling: Scaling {
        factor: f64::NAN,
        zero: f64::NAN,
    },
    null: Null::NotGiven,
};

pub const EMPTY_LAYOUT: BinTable = BinTable {
    naxis1: 0,
    naxis2: 0,
    pcount: 0,
    theap: 0,
    tfields: 0,
    columns: [NO_COLUMN; TFIELDS_LIMIT],
};

// Whether a layout, which anybody can make, keeps every limit and sum.
pub fn layout_ok(layout: BinTable) -> bool
    ensures { result ≡ layout_ok layout }
{
    layout_ok_of(&layout)
}

// The same over a layout that is lent, which is not copied.
#[tactic(auto, unfolding(crate::specs::Layout::layout_ok))]
pub fn layout_ok_of(layout: &BinTable) -> bool
    ensures { result ≡ layout_ok layout.now }
{
    layout.naxis1 <= NAXIS1_LIMIT
        && layout.naxis2 <= NAXIS2_LIMIT
        && layout.pcount <= PCOUNT_LIMIT
        && layout.tfields <= TFIELDS_LIMIT
        && layout.naxis1 * layout.naxis2 <= layout.theap
        && layout.theap <= layout.naxis1 * layout.naxis2 + layout.pcount
        && limits::columns_ok(layout)
}

// The columns that a layout has: `tfields`, or all where that is more.
fn columns(layout: &BinTable) -> &[Column]
    ensures { result.now ≡ columns_of layout.now }
{
    &layout.columns[..layout.tfields.min(TFIELDS_LIMIT)]
}

// The name of a column, as a part of the header; empty if there is no such column or name, or the header is too
// short for it. Header and layout are no struct here, since the header may be another than the layout's.
pub fn column_name(header: &[u8], layout: BinTable, column: usize) -> &[u8]
    ensures { result.now ≡ column_name header.now layout column }
{
    columns(&layout)
        .get(column)
        .and_then(|found| ttype::part(header, found.name))
        .unwrap_or(&[])
}

// The first column that has this name, in either case, two quotes of the header counted as one.
pub fn find_field_by_ttype(header: &[u8], layout: BinTable, name: &[u8]) -> Option<usize>
    ensures { result ≡ find_name header.now layout name.now }
{
    columns(&layout)
        .iter()
        .position(|column| ttype::has_name(header, column.name, name))
}
