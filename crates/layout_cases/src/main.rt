// Prints what `bintable` and `layout` say of each case in the file cases.bin.
//
// A case is a header, the length of a data area of zeros, how many bytes of the header are lent in a second round of
// name calls, and names to find. Numbers have four bytes, high byte first, the count of names and their lengths one.
#![tactic(auto)]

mod shown;

ghost use Rattle.std.specs.Prelude.{◌≤◌, ◌<◌, length, IfSome};
ghost use Rattle.std.specs.Iterator.{at_most};

use case_file::{CaseInPieces, Output};
use layout::{BinTable, Column, EMPTY_LAYOUT, TFIELDS_LIMIT};
use shown::{Bytes, Factors, Form, Missing, Place, Stretch};
use std::fmt::Write;
use std::{fs, io};

// The longest data area of a case.
const AREA_LIMIT: usize = 65536;

// Each case is lent a part of these: a program needs no heap for its areas, however often it is lent one.
static ZEROS: [u8; AREA_LIMIT] = [0; AREA_LIMIT];

// The name at the front, which has its length in a byte before it, and what stands after it; none where it is cut
// short.
fn split_name(names: &[u8]) -> Option<(&[u8], &[u8])>
    ensures { IfSome result (λ p. length p.1.now < length names.now) }
{
    let (len, rest) = names.split_first()?;
    rest.split_at_checked(usize::from(*len))
}

// What stands after so many names, or after fewer where one is cut short.
fn after_names(names: &[u8], count: u8) -> &[u8]
    ensures { length result.now ≤ length names.now }
{
    let mut rest = names;
    for _ in 0..count {
        let Some((_, after)) = split_name(rest) else {
            break;
        };
        rest = after;
    }
    rest
}

// The names at the front, up to one that is cut short.
#[derive(Clone, Copy)]
struct Names<'a>(&'a [u8]);

impl<'a> Iterator for Names<'a> {
    type Item = &'a [u8];

    ghost remaining = { λ s. at_most (length s.0.now) };

    fn next(&mut self) -> Option<&'a [u8]> {
        let (name, after) = split_name(self.0)?;
        self.0 = after;
        Some(name)
    }
}

fn print_sizes(rt: &impl Print, layout: &BinTable) {
    let _ = writeln!(
        Output(rt),
        "table {} columns {} rows {} bytes {} pcount {} theap",
        layout.tfields,
        layout.naxis2,
        layout.naxis1,
        layout.pcount,
        layout.theap
    );
}

fn print_column(rt: &impl Print, number: usize, column: &Column) {
    let form = Form(column.form);
    let bytes = tform::num_bytes_field(column.form, column.count);
    let _ = write!(
        Output(rt),
        "column {number} {form} {} at {} bytes {bytes}{}",
        column.count,
        column.start,
        Stretch(column.name)
    );
    // The scaling of a column with neither keyword is seen in what it reads.
    if column.scaling_given {
        let _ = write!(Output(rt), "{}", Factors(column.scaling));
    }
    let _ = writeln!(Output(rt), "{}", Missing(column.null));
}

#[derive(Clone, Copy)]
struct Table<'a> {
    header: &'a [u8],
    area: &'a [u8],
    // The part of the header that is lent in the second round.
    front: &'a [u8],
    names: &'a [u8],
    count: u8,
}

impl Table<'_> {
    // The name of each column and of one more, from the whole header and from its front.
    fn print_names(&self, rt: &impl Print, layout: BinTable) {
        for i in 0..=layout.tfields.min(TFIELDS_LIMIT) {
            let full = Bytes(layout::column_name(self.header, layout, i));
            let _ = writeln!(Output(rt), "name {i} full{full}");
            let cut = Bytes(layout::column_name(self.front, layout, i));
            let _ = writeln!(Output(rt), "name {i} cut{cut}");
        }
    }

    fn print_finds(&self, rt: &impl Print, layout: BinTable) {
        for (i, name) in Names(self.names).take(usize::from(self.count)).enumerate() {
            let full = Place(layout::find_field_by_ttype(self.header, layout, name));
            let _ = writeln!(Output(rt), "find {i} full{full}");
            let cut = Place(layout::find_field_by_ttype(self.front, layout, name));
            let _ = writeln!(Output(rt), "find {i} cut{cut}");
        }
    }
}

impl<'a> CaseInPieces<'a> for Table<'a> {
    fn split(bytes: &'a [u8]) -> Option<(Self, &'a [u8])> {
        let (header, rest) = case_file::split_block(bytes)?;
        let (area_len, rest) = case_file::split_number(rest)?;
        let (front_len, rest) = case_file::split_number(rest)?;
        let (count, names) = rest.split_first()?;
        let table = Table {
            header,
            area: ZEROS.get(..area_len as usize)?,
            front: header.get(..front_len as usize).unwrap_or(header),
            names,
            count: *count,
        };
        Some((table, after_names(names, *count)))
    }

    fn print(self, rt: &HostRuntime, number: usize) {
        let _ = writeln!(Output(rt), "case {number}");
        let parsed = bintable::parse(self.header, self.area);
        // Of a table that is refused the empty layout is shown.
        let layout = parsed.unwrap_or(EMPTY_LAYOUT);
        case_file::print_check_in_pieces(rt, parsed.err(), "accepted\n");
        print_sizes(rt, &layout);
        for (i, column) in layout.columns.iter().take(layout.tfields).enumerate() {
            print_column(rt, i, column);
        }
        self.print_names(rt, layout);
        self.print_finds(rt, layout);
    }
}

fn main(rt: HostRuntime) -> io::Result<()> {
    let file = fs::read(&rt, "cases.bin")?;
    case_file::print_cases_in_pieces::<Table>(&rt, file.as_slice());
    Ok(())
}
