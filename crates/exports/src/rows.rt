// The sum of the cells that row reads store, with one list that is lent to each of them.
ghost use Rattle.std.specs.Prelude.{◌≡◌, ◌≤◌, length, take};
ghost use Rattle.exports.specs.Checksum.{add_cells};
ghost use Rattle.exports.specs.Reads.{list_length, reads_sum};
ghost use Rattle.exports.specs.Loops.{rows_from};

use super::{checksum, refusals};
use cell::Cell;
use layout::BinTable;
use row::owners::LIST_LIMIT;
use walk::{How, TableData};

// The first n cells of a list.
#[tactic(auto, using(crate::proofs::Sums::cells_folded))]
fn add_front(list: &[Cell], n: usize, sum: u32) -> u32
    requires { n ≤ length list.now }
    ensures { result ≡ add_cells sum (take n list.now) }
{
    list[..n]
        .iter()
        .fold(sum, |total, cell| checksum::add_cell(total, *cell))
}

// The rows from a cursor on, up to the first that is not read.
#[tactic(auto, using(crate::proofs::RowReads::row_stored, crate::proofs::RowReads::row_added))]
fn add_rows(list: &mut [Cell], layout: BinTable, area: &[u8], cursor: TableData, how: How) -> u64
    ensures { result ≡ reads_sum (rows_from (length list.old) layout area.now how.reading cursor) }
{
    let mut sum: u32 = 0;
    let mut current = cursor;
    loop {
        let stepped = row::read_row(layout, area, current, how, list);
        let Ok(Some(n)) = stepped.answer else {
            return refusals::ended(sum, stepped.answer);
        };
        sum = add_front(list, n as usize, sum);
        current = stepped.cursor;
    }
}

pub fn sum_rows(layout: BinTable, area: &[u8], cursor: TableData, how: How) -> u64
    ensures { result ≡ reads_sum (rows_from list_length layout area.now how.reading cursor) }
{
    let mut list = [cell::blank_cell(); LIST_LIMIT];
    add_rows(&mut list, layout, area, cursor, how)
}
