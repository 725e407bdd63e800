// What the program says on standard error.
ghost use Rattle.std.specs.Prelude.{◌≡◌, [], ◌++◌, map};
ghost use Rattle.std.specs.List.{concat};
ghost use Rattle.ascii.specs.Number.{decimal_text};
ghost use Rattle.refusal.specs.Refusal.{number_of, place_of};
ghost use Rattle.words.specs.Words.{words_text};
ghost use Rattle.subcommand.specs.Message.{message_text, usage_text, long_file_text, unread_text};
ghost use Rattle.subcommand.specs.Message.{refused_with, refused_text, page_words};

use super::page;
use itoa::Buffer;
use layout::BinTable;
use refusal::Refusal;

// A message, as the pieces that make it one after the other: what is said of the arguments or of a file, then of a
// refusal its number and place, its words, and the end of that line.
#[derive(Clone, Copy)]
pub struct Message<'a> {
    pub note: [&'a [u8]; 3],
    pub refusal: [&'a [u8]; 5],
    pub words: [&'a [u8]; words::PIECES],
    pub end: &'a [u8],
}

// The digits of a refusal's number and place.
#[derive(Drop)]
pub struct Digits {
    number: Buffer,
    place: Buffer,
}

impl Digits {
    pub fn new() -> Digits {
        Digits {
            number: Buffer::new(),
            place: Buffer::new(),
        }
    }
}

// The number and the place of a refusal as text.
#[derive(Clone, Copy)]
struct Numbers<'a> {
    number: &'a [u8],
    place: &'a [u8],
}

const USAGE: &[u8] = b"\
usage: coentrift turn TABLE
       coentrift turn-back TABLE
       coentrift page TABLE COLUMN ROW EDITION

turn and turn-back write to standard output the header of TABLE as it is, then its
data. turn puts byte p of row r, both counted from 0, at p x NAXIS2 + r, and leaves
the bytes after the last row as they are; turn-back takes such a file and puts each
byte back.

page writes a line for each item of a column of form E in one row: ROW, the item's
index and its weight, with one decimal in EDITION 1 and two in EDITION 2. Ten stars
stand for an infinity, a NaN and what takes more than ten places. COLUMN is an index
if it is all digits, else a name, of which Weight and WEIGHT are the same. Rows,
columns and items are counted from 0.

TABLE is the file of a binary table extension alone, its header and then its data,
of 2,097,152 bytes at most. One that cannot be read counts as empty. An argument has
at most 4,095 bytes, and a subcommand is in small letters. docs/FORMAT.md, sections 18
to 20, says more.

Status: 0 all was written; 1 the table or the page was refused, or TABLE is too long,
and standard error says why; 2 the arguments are wrong, memory is lacking, or the
output cannot be written; 141 whoever read the output has closed it.
";

// A message that is a note alone.
fn noted<'a>(note: [&'a [u8]; 3]) -> Message<'a>
    ensures { message_text result ≡ concat (map (λ p. p.now) note.entry) }
{
    Message {
        note,
        refusal: [b""; 5],
        words: [b""; words::PIECES],
        end: b"",
    }
}

// Nothing is said.
pub fn nothing() -> Message<'static>
    ensures { message_text result ≡ [] }
{
    noted([b""; 3])
}

// How the program is used.
#[tactic(auto, unfolding(crate::specs::Message::usage_text))]
pub fn usage() -> Message<'static>
    ensures { message_text result ≡ usage_text }
{
    noted([USAGE, b"", b""])
}

// A file is longer than the program takes.
pub fn long_file<'a>(name: &'a [u8]) -> Message<'a>
    ensures { message_text result ≡ long_file_text name.now }
{
    noted([b"coentrift: '", name, b"' is longer than 2,097,152 bytes\n"])
}

// The number and the place of a refusal as text.
fn number_and_place<'a>(refusal: Refusal, digits: &'a mut Digits) -> Numbers<'a>
    ensures number { result.number.now ≡ decimal_text (number_of refusal) }
    ensures place { result.place.now ≡ decimal_text (place_of refusal) }
{
    Numbers {
        number: ascii::digits::decimal(refusal::number(refusal), &mut digits.number),
        place: ascii::digits::decimal(refusal::place(refusal), &mut digits.place),
    }
}

// A note, and after it a refusal in words.
fn noted_refusal<'a>(
    note: [&'a [u8]; 3],
    numbers: Numbers<'a>,
    words: [&'a [u8]; words::PIECES],
) -> Message<'a>
    ensures { message_text result ≡ concat (map (λ p. p.now) note.entry)
        ++ refused_with numbers.entry.number.now numbers.entry.place.now (concat (map (λ p. p.now) words.entry)) }
{
    Message {
        note,
        refusal: [
            b"coentrift: refused ",
            numbers.number,
            b" ",
            numbers.place,
            b": ",
        ],
        words,
        end: b"\n",
    }
}

// A refusal of a file's table.
pub fn refused<'a>(refusal: Refusal, file: &'a [u8], digits: &'a mut Digits) -> Message<'a>
    ensures { message_text result ≡ refused_text refusal (words_text refusal file.now) }
{
    let numbers = number_and_place(refusal, digits);
    let words = words::words(refusal, file, numbers.place);
    noted_refusal([b""; 3], numbers, words)
}

// A file that cannot be read, and the refusal of an empty one.
pub fn unread<'a>(name: &'a [u8], refusal: Refusal, digits: &'a mut Digits) -> Message<'a>
    ensures { message_text result ≡ unread_text name.now ++ refused_text refusal (words_text refusal []) }
{
    let note = [
        b"coentrift: cannot read '",
        name,
        b"', which counts as empty\n",
    ];
    let numbers = number_and_place(refusal, digits);
    let words = words::words(refusal, b"", numbers.place);
    noted_refusal(note, numbers, words)
}

// A refusal of a page of a column, which may not be there.
pub fn page_refused<'a>(
    refusal: Refusal,
    file: &'a [u8],
    layout: &BinTable,
    column: Option<usize>,
    edition: u64,
    digits: &'a mut Digits,
) -> Message<'a>
    ensures { message_text result
        ≡ refused_text refusal (page_words layout.now file.now column edition refusal) }
{
    let numbers = number_and_place(refusal, digits);
    let words = page::words(refusal, file, layout, column, edition, numbers.place);
    noted_refusal([b""; 3], numbers, words)
}
