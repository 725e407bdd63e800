// The records of a header up to END, and where each used name stands.
#![tactic(auto)]

mod records;

ghost use Rattle.std.specs.Prelude.{◌≡◌};
ghost use Rattle.header.specs.Records.{header_len, header_of, data_of};
ghost use Rattle.refusal.specs.Refusal.{outcome_of};
ghost use Rattle.header.specs.Checks.{bad_length, checked, first_at, second_at, index_by};

use card::RECORD_BYTES;
use keyword::SLOTS;
use refusal::Refusal;

// The records of a used name: the first that has it, and the second.
#[derive(Clone, Copy)]
pub struct Entry {
    pub first: Option<u16>,
    pub second: Option<u16>,
}

// What checks 1, 2 and 3 of a header come to (docs/FORMAT.md, section 5), and its index: for each slot the records of
// its name, an array by slot, since there is no heap for a map. It is no Result, since a header that check 3 refuses has
// its index too.
#[derive(Clone, Copy)]
pub struct Header {
    pub check: Result<(), Refusal>,
    pub index: [Entry; SLOTS],
}

// A header is at most so long, in whole blocks.
const MOST_BYTES: usize = 57600;

const BLOCK_BYTES: usize = 2880;

// The first record that an index gives for a slot.
pub fn record_of(index: &[Entry], slot: usize) -> Option<usize>
    ensures { result ≡ first_at index.now slot }
{
    Some(index.get(slot)?.first? as usize)
}

// The second one.
pub fn second_of(index: &[Entry], slot: usize) -> Option<usize>
    ensures { result ≡ second_at index.now slot }
{
    Some(index.get(slot)?.second? as usize)
}

#[tactic(auto, unfolding(crate::specs::Checks::bad_length))]
fn bad_length(header: &[u8]) -> bool
    ensures { result ≡ bad_length header.now }
{
    let n = header.len();
    n == 0 || n > MOST_BYTES || n % BLOCK_BYTES != 0
}

// Checks a header and indexes its used names, in one pass over its records. The index is empty where
// the length is bad or there is no END.
pub fn parse(header: &[u8]) -> Header
    ensures check { outcome_of result.check ≡ checked header.now }
    ensures index { result.index ≡ index_by header.now }
{
    if bad_length(header) {
        return records::refused(Err(Refusal::BadLength));
    }
    records::read_records(header)
}

// Where the header ends in the bytes of a file.
pub fn header_len(file: &[u8]) -> usize
    ensures { result ≡ header_len file.now }
{
    let size = file.len();
    (0..size / RECORD_BYTES)
        .find(|k| card::is_end(file, *k))
        .map_or(size, |k| records::block_end(size, k))
}

// The header of a file, through the block that has END, and the data after it.
#[tactic(auto, using(crate::proofs::Parted::header_inside))]
pub fn split_file(file: &[u8]) -> (&[u8], &[u8])
    ensures header { result.0.now ≡ header_of file.now }
    ensures data { result.1.now ≡ data_of file.now }
{
    file.split_at(header_len(file))
}
