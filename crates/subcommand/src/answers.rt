// What is printed for a subcommand and its file: the bytes of standard output to the front of a lent buffer, and what
// standard error gets.
ghost use Rattle.std.specs.Prelude.{◌≡◌, ◌≤◌, length, take};
ghost use Rattle.std.specs.Option.{option_copied};
ghost use Rattle.ascii.specs.Buffer.{put_in};
ghost use Rattle.refusal.specs.Refusal as R;
ghost use Rattle.listing.specs.Lines.{refused_line};
ghost use Rattle.header.specs.Records.{header_of, data_of};
ghost use Rattle.bintable.specs.Entry.{entry, accepted};
ghost use Rattle.turn.specs.Turn.{turn_outcome};
ghost use Rattle.subcommand.specs.Arguments.{sought_by, asked_by, table_of};
ghost use Rattle.subcommand.specs.Printed.{printed, printed_by, of_table, of_file, table_limit};
ghost use Rattle.profile.specs.Page.{reply_of};
ghost use Rattle.subcommand.specs.Printed.{found_column, page_made};
ghost use Rattle.subcommand.specs.Ways.{area_by, file_by, made_by, reply_for, left_for};

use super::message::{Digits, Message};
use super::{SoughtColumn, Subcommand, message};
use layout::{BinTable, EMPTY_LAYOUT};
use listing::Line;
use refusal::Refusal;

// The most bytes of a table's file.
pub const TABLE_LIMIT: usize = 2097152;

// The length of the buffer for what is printed. It has room for each table and for 155,344 lines of a page.
pub const OUT_ROOM: usize = 4194304;

// The statuses: all was done; a table or a page was refused, or a file is too long; the arguments are wrong.
const DONE: u8 = 0;

const REFUSED: u8 = 1;

const MISUSED: u8 = 2;

// How many bytes of the buffer are for standard output, what standard error gets, and the status.
#[derive(Clone, Copy)]
pub struct Answer<'a> {
    pub len: usize,
    pub message: Message<'a>,
    pub status: u8,
}

// Which of the two calls a table's data area goes through.
#[derive(Clone, Copy)]
enum Way {
    Turn,
    TurnBack,
}

// The line of a refusal.
fn put_refusal(refusal: Refusal, out: &mut [u8; OUT_ROOM]) -> usize
    ensures len { result ≡ length (refused_line (R.number_of refusal) (R.place_of refusal)) }
    ensures text { take result out.new ≡ refused_line (R.number_of refusal) (R.place_of refusal) }
    ensures buffer { out.new ≡ put_in out.old 0 (refused_line (R.number_of refusal) (R.place_of refusal)) }
{
    listing::put_line(out, 0, b"", EMPTY_LAYOUT, Line::Refused(refusal)).unwrap_or(0)
}

// A data area turned, or turned back. The calls refuse nothing of what the entry has accepted.
fn turn_area(layout: BinTable, way: Way, from: &[u8], to: &mut [u8])
    requires accepted { turn_outcome layout from.now to.old ≡ R.accepted }
    ensures { to.new ≡ area_by way layout from.now }
{
    let _ = match way {
        Way::Turn => turn::turn(layout, from, to),
        Way::TurnBack => turn::turn_back(layout, from, to),
    };
}

// The table of a file that the entry accepts: its header, then its data turned, or turned back.
fn put_turned(file: &[u8], layout: BinTable, way: Way, out: &mut [u8; OUT_ROOM]) -> usize
    requires entered { entry (header_of file.now) (data_of file.now) ≡ accepted layout }
    requires room { length file.now ≤ table_limit }
    ensures len { result ≡ length (file_by way layout file.now) }
    ensures text { take result out.new ≡ file_by way layout file.now }
    ensures buffer { out.new ≡ put_in out.old 0 (file_by way layout file.now) }
{
    let (header, area) = header::split_file(file);
    let start = ascii::buffer::put(out, 0, header);
    turn_area(layout, way, area, &mut out[start..file.len()]);
    file.len()
}

// The column that is sought, if there is one: an index is taken as it is.
fn find_column(header: &[u8], layout: BinTable, column: SoughtColumn) -> Option<usize>
    ensures { result ≡ found_column header.now layout (sought_by column.entry) }
{
    match column {
        SoughtColumn::Index(c) => Some(c),
        SoughtColumn::Name(name) => layout::find_field_by_ttype(header, layout, name),
    }
}

// Puts the page of a row of a column to the front of the buffer, unless it is refused, as where there is no column.
fn put_profile(
    layout: BinTable,
    area: &[u8],
    column: Option<usize>,
    row: usize,
    edition: u64,
    out: &mut [u8; OUT_ROOM],
) -> Result<usize, Refusal>
    ensures reply { reply_of result ≡ reply_for layout area.now column row edition }
    ensures buffer { out.new ≡ left_for layout area.now column row edition out.old }
{
    match column {
        Some(c) => profile::put_page(layout, area, c, row, edition, out),
        None => Err(Refusal::Unsuitable),
    }
}

// The page of a row, or its refusal.
fn of_page<'a>(
    file: &'a [u8],
    layout: BinTable,
    column: SoughtColumn,
    row: usize,
    edition: u64,
    out: &mut [u8; OUT_ROOM],
    digits: &'a mut Digits,
) -> Answer<'a>
    ensures printed { printed_by result out.new ≡ page_made (sought_by column.entry) row edition layout file.now }
    ensures len { result.len ≡ length (page_made (sought_by column.entry) row edition layout file.now).out }
    ensures buffer { out.new ≡ put_in out.old 0 (page_made (sought_by column.entry) row edition layout file.now).out }
{
    let (header, area) = header::split_file(file);
    let found = find_column(header, layout, column);
    match put_profile(layout, area, found, row, edition, out) {
        Ok(len) => Answer {
            len,
            message: message::nothing(),
            status: DONE,
        },
        Err(refusal) => Answer {
            len: put_refusal(refusal, out),
            message: message::page_refused(refusal, file, &layout, found, edition, digits),
            status: REFUSED,
        },
    }
}

// What is made of a file whose table the entry accepts.
fn of_accepted<'a>(
    file: &'a [u8],
    layout: BinTable,
    asked: Subcommand,
    out: &mut [u8; OUT_ROOM],
    digits: &'a mut Digits,
) -> Answer<'a>
    requires entered { entry (header_of file.now) (data_of file.now) ≡ accepted layout }
    requires room { length file.now ≤ table_limit }
    ensures printed { printed_by result out.new ≡ made_by asked.entry layout file.now }
    ensures len { result.len ≡ length (made_by asked.entry layout file.now).out }
    ensures buffer { out.new ≡ put_in out.old 0 (made_by asked.entry layout file.now).out }
{
    let way = match asked {
        Subcommand::Turn(_) => Way::Turn,
        Subcommand::TurnBack(_) => Way::TurnBack,
        Subcommand::Page {
            column,
            row,
            edition,
            ..
        } => return of_page(file, layout, column, row, edition, out, digits),
    };
    Answer {
        len: put_turned(file, layout, way, out),
        message: message::nothing(),
        status: DONE,
    }
}

// What is made of a file's table.
fn of_file<'a>(
    file: &'a [u8],
    asked: Subcommand,
    out: &mut [u8; OUT_ROOM],
    digits: &'a mut Digits,
) -> Answer<'a>
    requires { length file.now ≤ table_limit }
    ensures printed { printed_by result out.new ≡ of_file (made_by asked.entry) file.now }
    ensures len { result.len ≡ length (of_file (made_by asked.entry) file.now).out }
    ensures buffer { out.new ≡ put_in out.old 0 (of_file (made_by asked.entry) file.now).out }
{
    match bintable::parse_file(file) {
        Ok(layout) => of_accepted(file, layout, asked, out, digits),
        Err(refusal) => Answer {
            len: put_refusal(refusal, out),
            message: message::refused(refusal, file, digits),
            status: REFUSED,
        },
    }
}

// What is made of the table in a file that was read, or that could not be, which counts as empty.
#[tactic(auto, using(crate::proofs::Empty::put_nothing, bintable::proofs::Empty::empty_refused))]
fn of_table<'a>(
    asked: Subcommand<'a>,
    file: Option<&'a [u8]>,
    out: &mut [u8; OUT_ROOM],
    digits: &'a mut Digits,
) -> Answer<'a>
    ensures printed { printed_by result out.new
        ≡ of_table (made_by asked.entry) (table_of asked.entry) (option_copied file.entry) }
    ensures len { result.len
        ≡ length (of_table (made_by asked.entry) (table_of asked.entry) (option_copied file.entry)).out }
    ensures buffer { out.new
        ≡ put_in out.old 0 (of_table (made_by asked.entry) (table_of asked.entry) (option_copied file.entry)).out }
{
    let name = asked.table();
    let Some(bytes) = file else {
        let refusal = Refusal::BadLength;
        return Answer {
            len: put_refusal(refusal, out),
            message: message::unread(name, refusal, digits),
            status: REFUSED,
        };
    };
    if bytes.len() > TABLE_LIMIT {
        return Answer {
            len: 0,
            message: message::long_file(name),
            status: REFUSED,
        };
    }
    of_file(bytes, asked, out, digits)
}

// What is printed for a subcommand, or for wrong arguments, and the file that it names, as it was read; none where it
// cannot be read. The rest of the buffer stays as it was.
#[tactic(auto, using(crate::proofs::Empty::put_nothing, crate::proofs::Made::made_printed))]
pub fn respond<'a>(
    asked: Option<Subcommand<'a>>,
    file: Option<&'a [u8]>,
    out: &mut [u8; OUT_ROOM],
    digits: &'a mut Digits,
) -> Answer<'a>
    ensures printed { printed_by result out.new ≡ printed (asked_by asked.entry) (λ _. option_copied file.entry) }
    ensures len { result.len ≡ length (printed (asked_by asked.entry) (λ _. option_copied file.entry)).out }
    ensures buffer { out.new ≡ put_in out.old 0 (printed (asked_by asked.entry) (λ _. option_copied file.entry)).out }
{
    match asked {
        Some(subcommand) => of_table(subcommand, file, out, digits),
        None => Answer {
            len: 0,
            message: message::usage(),
            status: MISUSED,
        },
    }
}
