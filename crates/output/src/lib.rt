// What `cells` and `replay` print: what is next in each state, and pages of lines.
#![tactic(auto)]

mod cells;
mod pages;
mod replay;
mod settings;

ghost use Rattle.std.specs.Prelude.{◌≡◌, ◌≤◌, ◌+◌, [], length, take};
ghost use Rattle.layout.specs.Layout.{empty_layout};
ghost use Rattle.bintable.specs.Entry.{entry, layout_in};
ghost use Rattle.ascii.specs.Buffer.{put_in};
ghost use Rattle.header.specs.Records.{header_of, data_of};
ghost use Rattle.output.specs.Cells.{file_limit, cells_lines};
ghost use Rattle.output.specs.Replay.{replay_lines};
ghost use Rattle.output.specs.State.{file_left, left_of};
ghost use Rattle.output.specs.Next.{left_in, lines_by};
ghost use Rattle.output.specs.Page.{page_text, page_rest, Whole};

use layout::{BinTable, EMPTY_LAYOUT};
use listing::Line;
use refusal::Refusal;
use walk::{How, TableData};

// How many bytes of a file are looked at.
pub const FILE_LIMIT: usize = 65536;

// The length of a page's buffer: it has room for every line of a file of `FILE_LIMIT` bytes.
pub const PAGE_ROOM: usize = 131072;

// What is to be printed next.
#[derive(Clone, Copy)]
pub enum State {
    // `cells`: the line of the table, that of this column, a cell read.
    Table,
    Column(usize),
    Cells(TableData),
    // `replay`: the line of the steps at this place, the cursor's place and count, cell k of the list that the row
    // read by `reader` in a reading stores to. A place and no slice of the steps, since a state is plain data.
    Step {
        at: usize,
        cursor: TableData,
    },
    At {
        at: usize,
        cursor: TableData,
    },
    Listed {
        at: usize,
        reader: TableData,
        how: How,
        len: usize,
        k: usize,
    },
    // The line of a refusal, and nothing after it.
    Refused(Refusal),
    Done,
}

// The next line and the state after it.
#[derive(Clone, Copy)]
struct Next {
    line: Line,
    state: State,
}

// A page: how long its text is, and the state after it.
#[derive(Clone, Copy)]
pub struct Page {
    pub len: usize,
    pub state: State,
}

// A layout and the state in which a program starts with it. No Result: a refusal is a line to print like any other.
#[derive(Clone, Copy)]
pub struct Start {
    pub layout: BinTable,
    pub state: State,
}

// What the lines are made of: a file with a table, the table's layout, and a file of steps.
#[derive(Clone, Copy)]
pub struct Source<'a> {
    pub file: &'a [u8],
    pub layout: BinTable,
    pub steps: &'a [u8],
}

// The same with the file parted. It is made once a page, so that the header is not looked through for its end at each
// line. The layout is lent, so that no line copies it.
#[derive(Clone, Copy)]
struct Parts<'a> {
    header: &'a [u8],
    layout: &'a BinTable,
    area: &'a [u8],
    steps: &'a [u8],
}

// The line of a refusal, and nothing after it.
fn refused_next(refusal: Refusal) -> Next
    ensures { result ≡ record { line = Line.Refused refusal; state = State.Done } }
{
    Next {
        line: Line::Refused(refusal),
        state: State::Done,
    }
}

impl Parts<'_> {
    // The next line, none where nothing is left.
    fn next_line(&self, state: State) -> Option<Next>
        ensures { lines_by self.now result ≡ left_in self.now state }
    {
        match state {
            State::Table => Some(Next {
                line: Line::Table,
                state: State::Column(0),
            }),
            State::Column(c) => Some(self.next_column(c)),
            State::Cells(cursor) => Some(self.next_cell(cursor)),
            State::Step { at, cursor } => self.next_step(at, cursor),
            State::At { at, cursor } => Some(Next {
                line: Line::At(cursor),
                state: State::Step { at, cursor },
            }),
            State::Listed {
                at,
                reader,
                how,
                len,
                k,
            } => Some(self.next_listed(at, reader, how, len, k)),
            State::Refused(refusal) => Some(refused_next(refusal)),
            State::Done => None,
        }
    }
}

impl Source<'_> {
    // The next page of the lines: as many whole lines as the buffer has room for, the rest of it as it was. Where the
    // buffer is 128 bytes longer than the file there is room for every line, so an empty page is the last.
    pub fn next_page(&self, state: State, out: &mut [u8]) -> Page
        ensures len { result.len ≡ length (page_text (length out.old) (left_of self.now state)) }
        ensures buffer { out.new ≡ put_in out.old 0 (page_text (length out.old) (left_of self.now state)) }
        ensures state { left_of self.now result.state ≡ page_rest (length out.old) (left_of self.now state) }
        ensures whole { Whole (length self.now.file.now + 128) (length out.old) result.len (left_of self.now state) }
    {
        let (header, area) = header::split_file(self.file);
        let parts = Parts {
            header,
            layout: &self.layout,
            area,
            steps: self.steps,
        };
        parts.fill_page(state, out)
    }
}

// The same, of a file, its layout and the steps one by one.
pub fn next_page(file: &[u8], layout: BinTable, steps: &[u8], state: State, out: &mut [u8]) -> Page
    ensures len { result.len ≡ length (page_text (length out.old) (file_left file.now layout steps.now state)) }
    ensures buffer { out.new ≡ put_in out.old 0
        (page_text (length out.old) (file_left file.now layout steps.now state)) }
    ensures state { file_left file.now layout steps.now result.state
        ≡ page_rest (length out.old) (file_left file.now layout steps.now state) }
    ensures whole { Whole (length file.now + 128) (length out.old) result.len
        (file_left file.now layout steps.now state) }
{
    let source = Source {
        file,
        layout,
        steps,
    };
    source.next_page(state, out)
}

// The bytes of a file that are looked at.
#[tactic(auto, using(crate::proofs::Parted::first_part))]
pub fn first_bytes(file: &[u8]) -> &[u8]
    ensures bytes { result.now ≡ take file_limit file.now }
    ensures few { length result.now ≤ file_limit }
{
    &file[..file.len().min(FILE_LIMIT)]
}

// The start of a file that is refused: the layout is the empty one.
fn refused(refusal: Refusal) -> Start
    ensures layout { result.layout ≡ empty_layout }
    ensures state { result.state ≡ State.Refused refusal }
{
    Start {
        layout: EMPTY_LAYOUT,
        state: State::Refused(refusal),
    }
}

// The layout of a file's table, and the state in which `cells` starts.
pub fn cells_start(file: &[u8]) -> Start
    ensures layout { result.layout ≡ layout_in (entry (header_of file.now) (data_of file.now)) }
    ensures lines { file_left file.now result.layout [] result.state ≡ cells_lines file.now }
{
    match bintable::parse_file(file) {
        Ok(layout) => Start {
            layout,
            state: State::Table,
        },
        Err(refusal) => refused(refusal),
    }
}

// The layout of a file's table, and the state in which `replay` starts.
#[tactic(auto, using(crate::proofs::Before::replay_left))]
pub fn replay_start(file: &[u8], steps: &[u8]) -> Start
    ensures layout { result.layout ≡ layout_in (entry (header_of file.now) (data_of file.now)) }
    ensures lines { file_left file.now result.layout (take file_limit steps.now) result.state
        ≡ replay_lines file.now (take file_limit steps.now) }
{
    match bintable::parse_file(file) {
        Ok(layout) => {
            let (_, area) = header::split_file(file);
            let state = settings::first_step(layout, area, first_bytes(steps));
            Start { layout, state }
        }
        Err(refusal) => refused(refusal),
    }
}

// The first page of the lines that `replay` prints: as many whole lines as the buffer has room for, the rest of it
// as it was.
pub fn replay_text(file: &[u8], steps: &[u8], out: &mut [u8]) -> usize
    ensures len { result ≡ length (page_text (length out.old) (replay_lines file.now (take file_limit steps.now))) }
    ensures buffer { out.new ≡ put_in out.old 0
        (page_text (length out.old) (replay_lines file.now (take file_limit steps.now))) }
{
    let Start { layout, state } = replay_start(file, steps);
    let source = Source {
        file,
        layout,
        steps: first_bytes(steps),
    };
    source.next_page(state, out).len
}
