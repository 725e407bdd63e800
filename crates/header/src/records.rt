// The pass over the records.
ghost use Rattle.std.specs.Prelude.{◌≡◌, false, ℕ, ◌+◌, ◌*◌, ◌/◌, ◌<◌, ◌^◌, min, length, replicate, Some, None};
ghost use Rattle.keyword.specs.Names.{slot_names};
ghost use Rattle.header.specs.Noting.{entry_at, stored, kept, noted, kept_after};
ghost use Rattle.refusal.specs.Refusal.{outcome_of};
ghost use Rattle.header.specs.Checks.{bad_length, repetition, checked, no_entry, index_by};

use super::{BLOCK_BYTES, Entry, Header};
use card::RECORD_BYTES;
use keyword::{ONCE, SLOTS};
use refusal::Refusal;

const BLOCK_RECORDS: usize = BLOCK_BYTES / RECORD_BYTES;

// The records of a name that no record has.
const NO_ENTRY: Entry = Entry {
    first: None,
    second: None,
};

// A refusal beside the empty index.
pub fn refused(check: Result<(), Refusal>) -> Header
    ensures { (result.check ≡ check) × (result.index ≡ replicate (length slot_names) no_entry) }
{
    Header {
        check,
        index: [NO_ENTRY; SLOTS],
    }
}

// The end of the 2,880-byte block with record k in `size` bytes, which hold that record.
pub fn block_end(size: usize, k: usize) -> usize
    requires { (k < size / 80) × (size < 2 ^ 63) }
    ensures { result ≡ min size ((k / 36 + 1) * 2880) }
{
    size.min((k / BLOCK_RECORDS + 1) * BLOCK_BYTES)
}

// Notes a record at the place of its name among the used ones.
fn note(index: &mut [Entry], place: Option<usize>, number: u16)
    requires { (s : ℕ) → place ≡ Some s → s < length index.old }
    ensures { index.new ≡ stored index.old place (noted (entry_at no_entry index.old place) number) }
{
    let Some(slot) = place else {
        return;
    };
    let Entry { first, second } = index[slot];
    index[slot] = Entry {
        first: first.or(Some(number)),
        second: second.or(first.and(Some(number))),
    };
}

// Notes a record at the place of its name among those that must not stand twice, and gives the first one noted there.
fn see(seen: &mut [Option<u16>], place: Option<usize>, number: u16) -> Option<u16>
    requires { (s : ℕ) → place ≡ Some s → s < length seen.old }
    ensures earlier { result ≡ entry_at None seen.old place }
    ensures seen { seen.new ≡ stored seen.old place (kept (entry_at None seen.old place) number) }
{
    let place = place?;
    let earlier = seen[place];
    seen[place] = earlier.or(Some(number));
    earlier
}

fn check_of(repeated: Option<u16>) -> Result<(), Refusal>
    ensures { outcome_of result ≡ repetition repeated }
{
    match repeated {
        Some(record) => Err(Refusal::RepeatedName {
            record: record as usize,
        }),
        None => Ok(()),
    }
}

// What `parse` answers on a header whose length is good.
pub fn read_records(header: &[u8]) -> Header
    requires { bad_length header.now ≡ false }
    ensures check { outcome_of result.check ≡ checked header.now }
    ensures index { result.index ≡ index_by header.now }
{
    let mut index = [NO_ENTRY; SLOTS];
    let mut seen: [Option<u16>; ONCE] = [None; ONCE];
    let mut repeated: Option<u16> = None;
    for k in 0..header.len() / RECORD_BYTES {
        if card::is_end(header, k) {
            return Header {
                check: check_of(repeated),
                index,
            };
        }
        let places = keyword::locate(card::name(header, k));
        let number = k as u16;
        note(&mut index, places.slot, number);
        let earlier = see(&mut seen, places.once, number);
        repeated = repeated.or(earlier.and(Some(number)));
    }
    refused(Err(Refusal::MissingEnd))
}
