// The sum of the cells that cell reads hand out, up to the first answer that is no cell.
ghost use Rattle.std.specs.Prelude.{◌≡◌};
ghost use Rattle.exports.specs.Reads.{reads_sum};
ghost use Rattle.exports.specs.Loops.{cells_from};

use super::{checksum, refusals};
use layout::BinTable;
use walk::{How, Stepped, TableData};

// The cursor goes to the reads by value, or is lent to them: by a constant, so that the loop over each is compiled for
// itself. A trait with a function for each copies the layout once more a read, which costs an eighth of its time.
#[tactic(auto, using(crate::proofs::CellReads::cell_added, crate::proofs::CellReads::cells_ended))]
pub fn sum_cells<const LENT: bool>(
    layout: BinTable,
    area: &[u8],
    cursor: TableData,
    how: How,
) -> u64
    ensures { result ≡ reads_sum (cells_from layout area.now how.reading cursor) }
{
    let mut sum: u32 = 0;
    let mut current = cursor;
    loop {
        let stepped = if LENT {
            let answer = row::next(&mut current, layout, area, how);
            Stepped {
                cursor: current,
                answer,
            }
        } else {
            table::next(layout, area, current, how)
        };
        let Ok(Some(cell)) = stepped.answer else {
            return refusals::ended(sum, stepped.answer);
        };
        sum = checksum::add_cell(sum, cell);
        current = stepped.cursor;
    }
}
