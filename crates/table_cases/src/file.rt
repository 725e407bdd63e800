// A case and its steps, made from their bytes in the file.
ghost use Rattle.std.specs.Prelude.{◌≤◌};

use layout::BinTable;
use refusal::Refusal;
use row::owners::LIST_LIMIT;
use walk::{How, Reading, TableData};

const RECORD_LEN: usize = 80;

const KEPT_LEN: usize = 32;

const STEP_LEN: usize = 18;

// The length of the longest header.
pub const HEADER_LIMIT: usize = 8640;

// The most indexes of columns.
const INDEX_LIMIT: usize = 128;

// The number that the first four bytes say, or 0 where there are fewer.
fn number_of(bytes: &[u8]) -> u32 {
    case_file::split_number(bytes).map_or(0, |(number, _)| number)
}

// The block at the front and what stands after it; nothing of either is taken where the block is cut short.
fn split_block(bytes: &[u8]) -> (&[u8], &[u8]) {
    case_file::split_block(bytes).unwrap_or((&[], bytes))
}

// The byte at a place, 0 where there is none.
fn byte_at(bytes: &[u8], at: usize) -> u8 {
    bytes.get(at).copied().unwrap_or(0)
}

// What stands from a place on, all where the place is past the end.
fn from(bytes: &[u8], start: usize) -> &[u8] {
    bytes.get(start..).unwrap_or(bytes)
}

// The part of the areas that eight bytes name: its place and its length, cut at the end of the areas.
fn lent<'a>(areas: &'a [u8], bytes: &[u8]) -> &'a [u8] {
    let len = number_of(from(bytes, 4)) as usize;
    let rest = from(areas, number_of(bytes) as usize);
    rest.get(..len).unwrap_or(rest)
}

// The length of a header of so many blocks, none where they are more than three.
fn header_len(blocks: u8) -> usize
    ensures { result ≤ 8640 }
{
    if blocks <= 3 {
        usize::from(blocks) * 2880
    } else {
        0
    }
}

#[derive(Clone, Copy)]
pub struct TableCase<'a> {
    header_blocks: u8,
    // The front of each record of the header.
    kept: &'a [u8],
    // What the entry is lent, and what the opening is.
    pub entry: &'a [u8],
    opening: &'a [u8],
    heap: bool,
    // The indexes of the chosen columns, if they are not all.
    indexes: Option<&'a [u8]>,
    // Each step is lent a part of these.
    pub areas: &'a [u8],
    steps: &'a [u8],
}

impl<'a> TableCase<'a> {
    pub fn new(body: &'a [u8]) -> Self {
        let (settings, rest) = split_block(body);
        let (kept, rest) = split_block(rest);
        let (areas, rest) = split_block(rest);
        let (indexes, rest) = split_block(rest);
        let (steps, _) = split_block(rest);
        TableCase {
            header_blocks: byte_at(settings, 0),
            kept,
            entry: lent(areas, from(settings, 3)),
            opening: lent(areas, from(settings, 11)),
            heap: byte_at(settings, 2) == 1,
            indexes: (byte_at(settings, 1) == 1).then_some(indexes),
            areas,
            steps,
        }
    }

    // The header, made in a buffer of spaces, which stay for what is not kept. Of the front of each record no more are
    // looked at than the header has records.
    pub fn header<'b>(&self, buffer: &'b mut [u8; HEADER_LIMIT]) -> &'b [u8] {
        let header = &mut buffer[..header_len(self.header_blocks)];
        let (records, _) = header.as_chunks_mut::<RECORD_LEN>();
        for (record, kept) in records.iter_mut().zip(self.kept.chunks(KEPT_LEN)) {
            // Byte by byte, since `copy_from_slice` asks for a proof that no chunk is longer than a record.
            for (place, byte) in record.iter_mut().zip(kept) {
                *place = *byte;
            }
        }
        header
    }

    // The cursor on the chosen columns, or what refuses the opening.
    pub fn open(&self, layout: BinTable) -> Result<TableData, Refusal> {
        let Some(indexes) = self.indexes else {
            return table::open(layout, self.opening, self.heap);
        };
        let (indexes, _) = indexes.as_chunks::<8>();
        let mut columns = [0; INDEX_LIMIT];
        for (column, index) in columns.iter_mut().zip(indexes) {
            *column = usize::from_be_bytes(*index);
        }
        let chosen = &columns[..indexes.len().min(INDEX_LIMIT)];
        table::select_fields(layout, self.opening, chosen, self.heap)
    }

    pub fn steps(&self) -> &'a [[u8; STEP_LEN]] {
        let (steps, _) = self.steps.as_chunks();
        steps
    }
}

// What a step calls.
#[derive(Clone, Copy)]
pub enum Call {
    Cell,
    Seek { row: usize },
    // With a list of so many cells.
    Row { len: usize },
}

#[derive(Clone, Copy)]
pub enum Step<'a> {
    // The cursor gets a place and a count.
    Put {
        row: u64,
        passed: u64,
        count: u32,
    },
    // The cursor gets a choice: column c is in it if bit c is set.
    Choose(u64),
    // A call is made so many times, in a reading, over a lent cursor or by value, with the area that it is lent.
    Call {
        call: Call,
        how: How,
        over_lent: bool,
        times: u8,
        area: &'a [u8],
    },
}

impl<'a> Step<'a> {
    pub fn new(bytes: &[u8; STEP_LEN], areas: &'a [u8]) -> Self {
        let kind = bytes[0];
        let (number, named) = bytes[2..].split_first_chunk().unwrap();
        let number = u64::from_be_bytes(*number);
        let call = match kind % 64 {
            1 => Call::Seek {
                row: number as usize,
            },
            2 => {
                return Step::Put {
                    row: number,
                    passed: u64::from(number_of(named)),
                    count: number_of(from(named, 4)),
                };
            }
            3 => return Step::Choose(number),
            4 => Call::Row {
                len: LIST_LIMIT.min(number as usize),
            },
            _ => Call::Cell,
        };
        let reading = if 64 <= kind % 128 {
            Reading::Scaled
        } else {
            Reading::Plain
        };
        Step::Call {
            call,
            how: How { reading },
            over_lent: 128 <= kind,
            times: bytes[1],
            area: lent(areas, named),
        }
    }
}
