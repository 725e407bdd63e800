// The counts and starts of the columns of a layout, which anybody can make.
ghost use Rattle.std.specs.Prelude.{◌≡◌};
ghost use Rattle.layout.specs.Layout.{columns_ok, columns_of};

use super::BinTable;

// Whether each count is within its limit, each column starts where the one before ends, and the last ends with the
// row.
pub fn columns_ok(layout: &BinTable) -> bool
    ensures { result ≡ columns_ok layout.now.naxis1 0 (columns_of layout.now) }
{
    let mut at: u64 = 0;
    for column in super::columns(layout) {
        if !tform::count_ok(column.form, column.count) {
            return false;
        }
        if column.start != at {
            return false;
        }
        at += tform::num_bytes_field(column.form, column.count);
    }
    at == layout.naxis1
}
