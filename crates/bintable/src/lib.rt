// The entry: for a header and a data area, the layout of a table or a refusal.
#![tactic(auto)]

mod columns;
mod keywords;
mod null;
mod record;
mod scaling;

ghost use Rattle.std.specs.Prelude.{◌≡◌, [], ◌++◌, ◌+◌, ◌<◌, length, get_or};
ghost use Rattle.keyword.specs.Names.{slot_names, text_of, column_slots, numeral, root_text};
ghost use Rattle.header.specs.Records.{found, header_of, data_of};
ghost use Rattle.header.specs.Checks.{index_by, record_of, second_of};
ghost use Rattle.bintable.specs.Checks.{size_in, value_at};
ghost use Rattle.bintable.specs.Entry.{entry, entry_of};

use header::Entry;
use keyword::{Keyword, Root};
use layout::BinTable;
use record::KeywordRecord;
use refusal::Refusal;

// A header with its index.
#[derive(Clone, Copy)]
struct Indexed<'a> {
    header: &'a [u8],
    index: &'a [Entry],
    ghost of_header: { index.now ≡ index_by header.now },
}

// The slot of the name that a root has for column i, from 0.
fn column_slot(root: Root, i: usize) -> usize
    requires { i < column_slots }
    ensures name { get_or slot_names result [] ≡ root_text root ++ numeral (i + 1) }
    ensures inside { result < length slot_names }
{
    root.first_slot() + i
}

impl<'a> Indexed<'a> {
    // The first record that has the name of a slot. Each of the three calls that find a record says that its header is
    // this one, which the checks of the record's text need.
    #[tactic(auto, using(header::proofs::Lookup::slot_first))]
    fn record(&self, slot: usize) -> KeywordRecord<'a>
        requires { slot < length slot_names }
        ensures header { result.header.now ≡ self.now.header.now }
        ensures number { result.number ≡ record_of self.now.header.now (get_or slot_names slot []) }
    {
        KeywordRecord::new(self.header, header::record_of(self.index, slot))
    }

    // That of a name which is not numbered by column.
    fn find(&self, keyword: Keyword) -> KeywordRecord<'a>
        ensures header { result.header.now ≡ self.now.header.now }
        ensures number { result.number ≡ record_of self.now.header.now (text_of keyword) }
    {
        self.record(keyword.slot())
    }

    // That of a root for column i, from 0.
    fn column_record(&self, root: Root, i: usize) -> KeywordRecord<'a>
        requires { i < column_slots }
        ensures header { result.header.now ≡ self.now.header.now }
        ensures number { result.number ≡ record_of self.now.header.now (root_text root ++ numeral (i + 1)) }
    {
        self.record(column_slot(root, i))
    }

    // Whether a second record has the name of a root for column i.
    #[tactic(auto, using(header::proofs::Lookup::slot_second))]
    fn is_repeated(&self, root: Root, i: usize) -> bool
        requires { i < column_slots }
        ensures { result ≡ found (second_of self.now.header.now (root_text root ++ numeral (i + 1))) }
    {
        header::second_of(self.index, column_slot(root, i)).is_some()
    }

    // The number of the value of a name that is not numbered by column, 0 where there is none.
    fn size(&self, keyword: Keyword) -> u64
        ensures { result ≡ size_in (value_at self.now.header.now (record_of self.now.header.now (text_of keyword))) }
    {
        self.find(keyword).size()
    }
}

// The layout of a table, or what refuses it.
#[tactic(auto, using(crate::proofs::Entered::header_refused, crate::proofs::Entered::names_refused))]
pub fn parse(header: &[u8], area: &[u8]) -> Result<BinTable, Refusal>
    ensures { entry_of result ≡ entry header.now area.now }
{
    let parsed = header::parse(header);
    parsed.check?;
    let indexed = Indexed {
        header,
        index: &parsed.index,
    };
    indexed.check_nine()?;
    indexed.parse_table(area)
}

// The same of a file, parted where its header ends.
pub fn parse_file(file: &[u8]) -> Result<BinTable, Refusal>
    ensures { entry_of result ≡ entry (header_of file.now) (data_of file.now) }
{
    let (header, area) = header::split_file(file);
    parse(header, area)
}
