// A plain entry in the reading of a step.
ghost use Rattle.std.specs.Prelude.{◌≡◌};
ghost use Rattle.walk.specs.Plain.{column_of};
ghost use Rattle.walk.specs.Readings.{entry_by, entry_as};

use super::{Entry, How, Reading};
use cell::Cell;
use layout::{BinTable, NO_COLUMN, Scaling};

// The scaling of a column, which a cell made by hand may name where the layout has none.
fn scaling_of(layout: &BinTable, column: usize) -> Scaling
    ensures { result ≡ (column_of layout.now column).scaling }
{
    match layout.columns.get(column) {
        Some(found) => found.scaling,
        None => NO_COLUMN.scaling,
    }
}

// A plain entry as a read hands it out, where the scaling is its column's.
pub fn entry_by(how: How, scaling: Scaling, entry: Entry) -> Entry
    ensures { result ≡ entry_by how.reading scaling entry }
{
    match (how.reading, entry) {
        (Reading::Scaled, Entry::Cell(cell)) => {
            let value = cell::scaled_value(scaling, cell.value);
            Entry::Cell(Cell { value, ..cell })
        }
        _ => entry,
    }
}

// The same, by the layout.
pub fn entry_as(layout: &BinTable, how: How, entry: Entry) -> Entry
    ensures { result ≡ entry_as layout.now how.reading entry }
{
    match entry {
        Entry::Cell(cell) => entry_by(how, scaling_of(layout, cell.column), entry),
        Entry::OutsideHeap { .. } => entry,
    }
}
