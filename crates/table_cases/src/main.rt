// Prints what `table` and `row` answer to the steps of each case in the file cases.bin.
//
// A case is a run of blocks: its settings, its header, its data areas, the indexes of the chosen columns, and its
// steps. Before each block stands its length, and before the case the length of them all. Numbers of a length or a
// place have four bytes, indexes and rows eight, high byte first.
//
// The settings are the header's blocks of 2,880 bytes, 1 for a choice (else all columns), 1 for the heap on, what
// the entry is lent of the areas (a place and a length), and what the opening is lent. A record of the header is
// kept as its first 32 bytes. A step is its kind, how often it is done, a row, and what it is lent. Kind 0 is a
// cell read, 1 a seek. Kind 2 puts the cursor anywhere: at that row, with two numbers in place of what is lent, the
// entries passed and the count. Kind 3 gives it a choice, which stands in place of the row. Kind 4 is a row read,
// with the length of its list, 512 at most, in place of the row.
//
// 64 more in the kind says that a read scales its cells. 128 more says that the read or seek is done over a lent
// cursor, else the cursor goes in by value and comes back. What is printed is the same for both. After a row read
// stands its list, whose cells were all `other` before.
#![tactic(auto)]

mod file;
mod reader;
mod shown;

ghost use Rattle.std.specs.Prelude.{◌<◌, length, IfSome};

use case_file::{CaseInPieces, Output};
use file::{HEADER_LIMIT, Step, TableCase};
use layout::BinTable;
use reader::Reader;
use shown::Line;
use std::fmt::Write;
use std::{fs, io};
use walk::TableData;

// The cursor as a step puts it.
fn print_put(rt: &impl Print, cursor: TableData) -> TableData {
    let _ = write!(Output(rt), "put\n{}", Line(cursor));
    cursor
}

// The cursor after a step, whose answers are printed.
fn print_step(rt: &impl Print, layout: BinTable, cursor: TableData, step: Step) -> TableData {
    match step {
        Step::Put { row, passed, count } => print_put(
            rt,
            TableData {
                row,
                passed,
                count,
                ..cursor
            },
        ),
        Step::Choose(choice) => print_put(rt, TableData { choice, ..cursor }),
        Step::Call {
            call,
            how,
            over_lent,
            times,
            area,
        } => {
            let reader = Reader {
                layout,
                area,
                how,
                over_lent,
            };
            let mut current = cursor;
            for _ in 0..times {
                current = reader.print_call(rt, current, call);
            }
            current
        }
    }
}

impl<'a> CaseInPieces<'a> for TableCase<'a> {
    fn split(bytes: &'a [u8]) -> Option<(Self, &'a [u8])> {
        let (body, rest) = case_file::split_block(bytes)?;
        Some((TableCase::new(body), rest))
    }

    fn print(self, rt: &HostRuntime, number: usize) {
        let _ = writeln!(Output(rt), "case {number}");
        let mut buffer = [b' '; HEADER_LIMIT];
        let layout = match bintable::parse(self.header(&mut buffer), self.entry) {
            Ok(layout) => layout,
            Err(refusal) => {
                let _ = writeln!(Output(rt), "{refusal}");
                return;
            }
        };
        let _ = writeln!(Output(rt), "accepted");
        let mut cursor = match self.open(layout) {
            Ok(cursor) => cursor,
            Err(refusal) => {
                let _ = writeln!(Output(rt), "{refusal}");
                return;
            }
        };
        let _ = write!(Output(rt), "opened\n{}", Line(cursor));
        for step in self.steps() {
            cursor = print_step(rt, layout, cursor, Step::new(step, self.areas));
        }
    }
}

fn main(rt: HostRuntime) -> io::Result<()> {
    let file = fs::read(&rt, "cases.bin")?;
    case_file::print_cases_in_pieces::<TableCase>(&rt, file.as_slice());
    Ok(())
}
