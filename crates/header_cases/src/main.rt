// Prints what `card` and `header` say of each header in the file cases.bin.
//
// The file is a run of cases: a length in four bytes, high byte first, and as many bytes of header.
#![tactic(auto)]

ghost use Rattle.std.specs.Prelude.{◌<◌, length, IfSome};

use card::Value;
use case_file::{CaseInPieces, Output, Signed};
use header::Entry;
use std::fmt::Write;
use std::{fmt, fs, io};

// A value as it is printed, after a space.
#[derive(Clone, Copy)]
struct Shown(Option<Value>);

impl fmt::Display for Shown {
    fn fmt<W: fmt::Write>(&self, f: &mut fmt::Formatter<W>) -> fmt::Result {
        match self.0 {
            Some(Value::Integer(number)) => write!(f, " integer {}", Signed(number)),
            Some(Value::String { start, len }) => write!(f, " string {start} {len}"),
            None => write!(f, " invalid"),
        }
    }
}

// The line of a slot that has a record.
fn print_slot(rt: &impl Print, header: &[u8], slot: usize, entry: Entry) {
    let Some(record) = entry.first else {
        return;
    };
    let value = Shown(card::parse_value(header, record as usize));
    let _ = write!(Output(rt), "slot {slot} record {record}{value}");
    if let Some(again) = entry.second {
        let _ = write!(Output(rt), " again {again}");
    }
    let _ = writeln!(Output(rt));
}

#[derive(Clone, Copy)]
struct Header<'a>(&'a [u8]);

impl<'a> CaseInPieces<'a> for Header<'a> {
    fn split(bytes: &'a [u8]) -> Option<(Self, &'a [u8])> {
        let (header, rest) = case_file::split_block(bytes)?;
        Some((Header(header), rest))
    }

    fn print(self, rt: &HostRuntime, number: usize) {
        let Header(header) = self;
        // The first line ends in the piece that the second begins with.
        let _ = writeln!(
            Output(rt),
            "case {number} length {}\nheader {}",
            header.len(),
            header::header_len(header)
        );
        let parsed = header::parse(header);
        case_file::print_check_in_pieces(rt, parsed.check.err(), "passed\n");
        for (slot, entry) in parsed.index.iter().enumerate() {
            print_slot(rt, header, slot, *entry);
        }
    }
}

fn main(rt: HostRuntime) -> io::Result<()> {
    let file = fs::read(&rt, "cases.bin")?;
    case_file::print_cases_in_pieces::<Header>(&rt, file.as_slice());
    Ok(())
}
