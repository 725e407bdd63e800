// The lines of `replay` from the first step on.
ghost use Rattle.std.specs.Prelude.{◌≡◌, ◌+◌, ◌≤◌, length, take};
ghost use Rattle.walk.specs.Step.{row_reply};
ghost use Rattle.steps.specs.Split.{line_feeds};
ghost use Rattle.walk.specs.Readings.{stored_by};
ghost use Rattle.output.specs.Next.{left_in, lines_by, answered, cell_next, seek_next, row_next};

use crate::{Next, Parts, State};
use cell::Cell;
use listing::Line;
use refusal::Refusal;
use steps::Command;
use walk::{How, Stepped, TableData};

// The line of a step's answer, and that the cursor's place and count come after it.
fn answered(line: Line, at: usize, cursor: TableData) -> Next
    ensures { result ≡ answered line at cursor }
{
    Next {
        line,
        state: State::At { at, cursor },
    }
}

// The line of a cell read's answer.
fn cell_answered(stepped: Stepped<Option<Cell>>, at: usize) -> Next
    ensures { result ≡ cell_next stepped.answer at stepped.cursor }
{
    let line = match stepped.answer {
        Ok(Some(cell)) => Line::Cell(cell),
        Ok(None) => Line::AtEnd,
        Err(refusal) => Line::Refused(refusal),
    };
    answered(line, at, stepped.cursor)
}

// The line of a seek's answer.
fn seek_answered(stepped: Stepped<()>, row: usize, at: usize) -> Next
    ensures { result ≡ seek_next stepped.answer row at stepped.cursor }
{
    let line = stepped
        .answer
        .map_or_else(Line::Refused, |()| Line::Seek(row));
    answered(line, at, stepped.cursor)
}

// The line of a row read's answer: the cells of its list come after it.
fn row_answered(
    stepped: Stepped<Option<u64>>,
    at: usize,
    reader: TableData,
    how: How,
    len: usize,
) -> Next
    ensures { result ≡ row_next stepped.answer at reader how len stepped.cursor }
{
    match stepped.answer {
        Ok(Some(cells)) => Next {
            line: Line::Row(cells),
            state: State::Listed {
                at,
                reader,
                how,
                len,
                k: 0,
            },
        },
        Ok(None) => answered(Line::AtEnd, at, stepped.cursor),
        Err(refusal) => answered(Line::Refused(refusal), at, stepped.cursor),
    }
}

// The line at a place of the steps says no step.
#[tactic(auto, using(crate::proofs::Lines::feeds_before))]
fn bad_line(steps: &[u8], at: usize) -> Next
    requires { at ≤ length steps.now }
    ensures { result ≡ record { line = Line.BadLine (line_feeds (take at steps.now) + 1); state = State.Done } }
{
    Next {
        line: Line::BadLine(steps::line_feeds(&steps[..at]) + 1),
        state: State::Done,
    }
}

// How many cells a row read stored, by its answer.
fn stored(answer: Result<Option<u64>, Refusal>) -> u64
    ensures { result ≡ stored_by (row_reply answer) }
{
    answer.ok().flatten().unwrap_or(0)
}

impl Parts<'_> {
    // The line at a place of the steps, and the step that it says; none at the end of the steps.
    pub fn next_step(&self, at: usize, cursor: TableData) -> Option<Next>
        ensures { lines_by self.now result ≡ left_in self.now (State.Step at cursor) }
    {
        if self.steps.len() <= at {
            return None;
        }
        let line = steps::line_at(self.steps, at);
        let after = at + line.len() + 1;
        let Some(command) = steps::parse_command(line) else {
            return Some(bad_line(self.steps, at));
        };
        let next = match command {
            Command::Cell(how) => {
                cell_answered(table::next_of(self.layout, self.area, cursor, how), after)
            }
            Command::Row { how, cells } => {
                let blank = cell::blank_cell();
                let read = row::owners::row_cell(
                    *self.layout,
                    self.area,
                    cursor,
                    how,
                    blank,
                    cells,
                    0,
                );
                row_answered(read.stepped, after, cursor, how, cells)
            }
            Command::Seek(row) => {
                let stepped = table::seek_to_row_of(self.layout, self.area, cursor, row);
                seek_answered(stepped, row, after)
            }
            Command::ChooseAll | Command::Choose | Command::Heap(_) => bad_line(self.steps, at),
        };
        Some(next)
    }

    // The next cell of the list that a row read stored to; after the last one the cursor's place and count. The row is
    // read anew for each cell, since no state can hold the list.
    #[tactic(auto, using(crate::proofs::Lines::listed_next, crate::proofs::Lines::listed_over))]
    pub fn next_listed(&self, at: usize, reader: TableData, how: How, len: usize, k: usize) -> Next
        ensures { lines_by self.now (Some result) ≡ left_in self.now (State.Listed at reader how len k) }
    {
        let blank = cell::blank_cell();
        let read = row::owners::row_cell(*self.layout, self.area, reader, how, blank, len, k);
        let Stepped { cursor, answer } = read.stepped;
        if (k as u64) < stored(answer) {
            return Next {
                line: Line::Cell(read.cell),
                state: State::Listed {
                    at,
                    reader,
                    how,
                    len,
                    k: k + 1,
                },
            };
        }
        Next {
            line: Line::At(cursor),
            state: State::Step { at, cursor },
        }
    }
}
