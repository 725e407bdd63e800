// The lines of `cells`.
ghost use Rattle.std.specs.Prelude.{◌≡◌};
ghost use Rattle.output.specs.Next.{cells_next, left_in, lines_by};

use crate::{Next, Parts, State, refused_next};
use cell::Cell;
use listing::Line;
use walk::{How, Reading, Stepped, TableData};

// The line of a cell read's answer, and the state after it.
fn answered(stepped: Stepped<Option<Cell>>) -> Next
    ensures { result ≡ cells_next stepped.answer stepped.cursor }
{
    match stepped.answer {
        Ok(Some(cell)) => Next {
            line: Line::Cell(cell),
            state: State::Cells(stepped.cursor),
        },
        Ok(None) => Next {
            line: Line::End(stepped.cursor.count as u64),
            state: State::Done,
        },
        Err(refusal) => refused_next(refusal),
    }
}

impl Parts<'_> {
    // A plain cell read, and the line of its answer.
    #[tactic(auto, using(crate::proofs::Entries::cells_read))]
    pub fn next_cell(&self, cursor: TableData) -> Next
        ensures { lines_by self.now (Some result) ≡ left_in self.now (State.Cells cursor) }
    {
        let plain = How {
            reading: Reading::Plain,
        };
        answered(table::next_of(self.layout, self.area, cursor, plain))
    }

    // The line of a column. After the last one all columns are opened, with the heap on.
    #[tactic(auto, using(crate::proofs::Entries::column_next, crate::proofs::Entries::columns_refused, crate::proofs::Entries::columns_opened))]
    pub fn next_column(&self, c: usize) -> Next
        ensures { lines_by self.now (Some result) ≡ left_in self.now (State.Column c) }
    {
        if c < self.layout.tfields {
            return Next {
                line: Line::Column(c),
                state: State::Column(c + 1),
            };
        }
        match table::open(*self.layout, self.area, true) {
            Ok(cursor) => self.next_cell(cursor),
            Err(refusal) => refused_next(refusal),
        }
    }
}
