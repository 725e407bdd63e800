// The calls that a step makes, and what is printed of them.
use crate::file::Call;
use crate::shown::Line;
use case_file::Output;
use cell::{Cell, DataValue};
use layout::BinTable;
use refusal::Refusal;
use row::owners::LIST_LIMIT;
use std::fmt::Write;
use walk::{How, Stepped, TableData};

// What a list is filled with before it is lent: a cell that no table gives.
fn other() -> Cell {
    Cell {
        row: 999,
        column: 99,
        idx: 9,
        value: DataValue::Bit(165),
    }
}

// How many cells a row read stored, none where it was refused or at the end.
fn cells_read(answer: Result<Option<u64>, Refusal>) -> usize {
    answer.ok().flatten().map_or(0, |cells| cells as usize)
}

// Whether cell k of a list of n is written: of a short list every one; of a long one the first eight, those up to
// two away from where the row read ended, and the last two.
fn is_shown(k: usize, n: usize, cells: usize) -> bool {
    n <= 24 || k < 8 || k.abs_diff(cells) <= 2 || k.abs_diff(n) <= 2
}

// How many cells a row read stored; what it returned is printed.
fn print_read(rt: &impl Print, stepped: Stepped<Option<u64>>) -> usize {
    let _ = write!(Output(rt), "{}", Line(stepped.answer));
    let _ = write!(Output(rt), "{}", Line(stepped.cursor));
    cells_read(stepped.answer)
}

fn print_listed(rt: &impl Print, k: usize, cell: Cell) {
    let _ = write!(Output(rt), "list {k} {}", Line(cell));
}

// What a step over a lent cursor answers, beside the cursor after it.
fn by_lent<T, F>(cursor: TableData, step: F) -> Stepped<T>
where
    F: FnOnce(&mut TableData) -> Result<T, Refusal>,
    requires { F.IsAlwaysCallable step }
{
    let mut own = cursor;
    let answer = step(&mut own);
    Stepped {
        cursor: own,
        answer,
    }
}

// The table under test, with the area that a step is lent, its reading, and whether its calls are made over a lent
// cursor. Each of its three calls has two shapes, and the file says which one is tried.
#[derive(Clone, Copy)]
pub struct Reader<'a> {
    pub layout: BinTable,
    pub area: &'a [u8],
    pub how: How,
    pub over_lent: bool,
}

impl Reader<'_> {
    fn next(&self, cursor: TableData) -> Stepped<Option<Cell>> {
        if self.over_lent {
            by_lent(
                cursor,
                |own| row::next(own, self.layout, self.area, self.how),
            )
        } else {
            table::next(self.layout, self.area, cursor, self.how)
        }
    }

    fn seek_to_row(&self, cursor: TableData, row: usize) -> Stepped<()> {
        if self.over_lent {
            by_lent(
                cursor,
                |own| row::seek_to_row(own, self.layout, self.area, row),
            )
        } else {
            table::seek_to_row(self.layout, self.area, cursor, row)
        }
    }

    // A row read into a list that is lent for it. It and the next are not inlined, so that the stack never holds their
    // two lists at once.
    #[inline(never)]
    fn print_lent_row(&self, rt: &impl Print, cursor: TableData, n: usize) -> TableData {
        let mut list = [other(); LIST_LIMIT];
        let lent = &mut list[..n.min(LIST_LIMIT)];
        let stepped = by_lent(
            cursor,
            |own| row::next_row(own, self.layout, self.area, self.how, lent),
        );
        let cells = print_read(rt, stepped);
        for (k, cell) in list
            .iter()
            .take(n)
            .enumerate()
            .filter(|(k, _)| is_shown(*k, n, cells))
        {
            print_listed(rt, k, *cell);
        }
        stepped.cursor
    }

    // By value the list is that of `row_cell`, which gives one cell of it: the read is done anew for each other that is
    // shown.
    #[inline(never)]
    fn print_own_row(&self, rt: &impl Print, cursor: TableData, n: usize) -> TableData {
        let read = |k: usize| {
            row::owners::row_cell(self.layout, self.area, cursor, self.how, other(), n, k)
        };
        let first = read(0);
        let cells = print_read(rt, first.stepped);
        for k in (0..n).filter(|k| is_shown(*k, n, cells)) {
            let listed = if k == 0 { first } else { read(k) };
            print_listed(rt, k, listed.cell);
        }
        first.stepped.cursor
    }

    // A row read. Cells of the list past those that it stored must be as they were, so they are printed too.
    fn print_row(&self, rt: &impl Print, cursor: TableData, n: usize) -> TableData {
        if self.over_lent {
            self.print_lent_row(rt, cursor, n)
        } else {
            self.print_own_row(rt, cursor, n)
        }
    }

    // The cursor after a call, whose answer is printed.
    pub fn print_call(&self, rt: &impl Print, cursor: TableData, call: Call) -> TableData {
        let after = match call {
            Call::Cell => {
                let stepped = self.next(cursor);
                let _ = write!(Output(rt), "{}", Line(stepped.answer));
                stepped.cursor
            }
            Call::Seek { row } => {
                let stepped = self.seek_to_row(cursor, row);
                let _ = write!(Output(rt), "{}", Line(stepped.answer));
                stepped.cursor
            }
            Call::Row { len } => return self.print_row(rt, cursor, len),
        };
        let _ = write!(Output(rt), "{}", Line(after));
        after
    }
}
