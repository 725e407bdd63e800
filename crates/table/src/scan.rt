// One pass over the columns of a cursor's row for a cell read: it counts the row's entries and finds the next one.
ghost use Rattle.std.specs.Prelude.{◌≡◌, true, ◌+◌, ◌≤◌, ◌<◌, ◌^◌};
ghost use Rattle.tform.specs.Width.{count_ok};
ghost use Rattle.table.specs.Scan.{after};

use layout::Column;

// Where an entry is found: its column, and its index in the column's field.
#[derive(Clone, Copy)]
pub struct Found {
    pub column: usize,
    pub idx: u64,
}

// The bytes and the entries of the columns so far, and the next entry, once it is found.
#[derive(Clone, Copy)]
pub struct Scan {
    pub at: u64,
    pub size: u64,
    pub found: Option<Found>,
}

// The pass after column c, which has so many entries. The next entry is the one with `passed` of the row before it.
#[tactic(auto, using(layout::proofs::Ok::column_limit))]
pub fn after(scan: Scan, column: Column, c: usize, size: u64, passed: u64) -> Scan
    requires { (count_ok column.form column.count ≡ true) × ((scan.at ≤ 8589935616) × (scan.size + size < 2 ^ 64)) }
    ensures { result ≡ after scan column c size passed }
{
    let end = scan.size + size;
    let found = if scan.size <= passed && passed < end {
        Some(Found {
            column: c,
            idx: passed - scan.size,
        })
    } else {
        scan.found
    };
    Scan {
        at: scan.at + tform::num_bytes_field(column.form, column.count),
        size: end,
        found,
    }
}
