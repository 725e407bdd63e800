// The first required name that a header does not have.
ghost use Rattle.std.specs.Prelude.{◌≡◌, ℕ, List};
ghost use Rattle.header.specs.Checks.{index_by};
ghost use Rattle.header.specs.Records.{header_of};
ghost use Rattle.words.specs.Words.{missing, first_missing, required_text};

use header::Entry;
use keyword::Keyword;

// The required names, in the order of their checks.
const REQUIRED: [Keyword; 8] = [
    Keyword::Xtension,
    Keyword::Bitpix,
    Keyword::Naxis,
    Keyword::Naxis1,
    Keyword::Naxis2,
    Keyword::Pcount,
    Keyword::Gcount,
    Keyword::Tfields,
];

// Whether a header, by its index, has no record of a name.
#[tactic(auto, using(header::proofs::Lookup::slot_first))]
fn is_missing(index: &[Entry], keyword: Keyword) -> bool
    ensures { (h : List ℕ) → index.now ≡ index_by h → result ≡ missing h keyword }
{
    header::record_of(index, keyword.slot()).is_none()
}

// The first of the required names that no record has.
fn first_missing(header: &[u8]) -> Option<Keyword>
    ensures { result ≡ first_missing header.now }
{
    let parsed = header::parse(header);
    REQUIRED
        .iter()
        .find(|keyword| is_missing(&parsed.index, **keyword))
        .copied()
}

// The first required name that a file does not have, as text.
pub fn name(file: &[u8]) -> &[u8]
    ensures { result.now ≡ required_text (first_missing (header_of file.now)) }
{
    match first_missing(header::split_file(file).0) {
        Some(keyword) => keyword.text(),
        None => b"a required keyword",
    }
}
