// The lines of a file of steps, and what each says.
#![tactic(auto)]

mod numbers;

ghost use Rattle.std.specs.Prelude.{◌≡◌, true, false, cond, drop};
ghost use Rattle.steps.specs.Split.{before, line_at, line_feeds, parts};
ghost use Rattle.ascii.specs.Number.{number};
ghost use Rattle.steps.specs.Numbers.{numbers};
ghost use Rattle.steps.specs.Line.{says, row_words, how_of, seek_by, choose_all, choose_by, heap, bad, is, begins};
ghost use Rattle.steps.specs.Line.{command_of, indexes_of, in_places};

use walk::{How, Reading};

// The byte that ends a line.
const LINE_FEED: u8 = b'\n';

// The most cells of a row read's list.
const ROW_LIMIT: usize = 512;

// What a line that is no bad one says. The indexes that it chooses are had by `place_indexes`.
#[derive(Clone, Copy)]
pub enum Command {
    ChooseAll,
    Choose,
    Heap(bool),
    Cell(How),
    Row { how: How, cells: usize },
    Seek(usize),
}

// How many bytes stand before the first one that is this.
fn len_before(text: &[u8], end: u8) -> usize
    ensures { result ≡ before end text.now }
{
    text.iter().take_while(|byte| **byte != end).count()
}

// The length of the line at the front of a text, without its line feed.
pub fn line_len(text: &[u8]) -> usize
    ensures { result ≡ before 10 text.now }
{
    len_before(text, LINE_FEED)
}

// The line that begins at a place of a text, without its line feed; empty where the text has no such place.
#[tactic(auto, using(crate::proofs::Lines::before_within))]
pub fn line_at(text: &[u8], at: usize) -> &[u8]
    ensures { result.now ≡ line_at text.now at }
{
    let rest = text.get(at..).unwrap_or(&[]);
    &rest[..line_len(rest)]
}

// How many line feeds a text has.
#[tactic(auto, using(crate::proofs::Lines::feeds_count))]
pub fn line_feeds(text: &[u8]) -> usize
    ensures { result ≡ line_feeds text.now }
{
    text.iter().filter(|byte| **byte == LINE_FEED).count()
}

// What a line says. By a `match` on the words the proof of the last arm, which comes by 35 ways, did not close; `==`
// takes no array beside a slice.
#[tactic(auto, using(ascii::proofs::Library::same_pointwise), unfolding(ascii::specs::Text::bytes, crate::specs::Line::says))]
pub fn parse_command(line: &[u8]) -> Option<Command>
    ensures { result ≡ command_of (says line.now) }
{
    if let Some(how) = line.strip_prefix(b"cell") {
        return Some(Command::Cell(parse_how(how)?));
    }
    if let Some(cells) = line.strip_prefix(b"row ") {
        return row_command(cells);
    }
    if let Some(row) = line.strip_prefix(b"seek ") {
        return seek_command(row);
    }
    other_command(line)
}

// The reading, by what stands after `cell` or after the N of `row N`.
#[tactic(auto, unfolding(ascii::specs::Text::bytes, ascii::specs::Text::same, crate::specs::Line::how_of))]
fn parse_how(text: &[u8]) -> Option<How>
    ensures { result ≡ how_of text.now }
{
    if ascii::same_bytes(text, b"") {
        return Some(How {
            reading: Reading::Plain,
        });
    }
    ascii::same_bytes(text, b" scaled").then_some(How {
        reading: Reading::Scaled,
    })
}

// `row` with this after it.
#[tactic(auto, using(crate::proofs::Lines::before_inside, crate::proofs::Lines::before_within))]
fn row_command(text: &[u8]) -> Option<Command>
    ensures { result ≡ command_of (row_words text.now) }
{
    let len = len_before(text, b' ');
    let cells = ascii::digits::parse_number(&text[..len])?;
    let how = parse_how(&text[len..])?;
    (cells <= ROW_LIMIT).then_some(Command::Row { how, cells })
}

// `seek` with this after it.
fn seek_command(text: &[u8]) -> Option<Command>
    ensures { result ≡ command_of (seek_by (number text.now)) }
{
    Some(Command::Seek(ascii::digits::parse_number(text)?))
}

// A line that is no `cell`, `row` or `seek`.
#[tactic(auto, using(ascii::proofs::Library::same_pointwise), unfolding(ascii::specs::Text::bytes))]
fn other_command(line: &[u8]) -> Option<Command>
    ensures { result ≡ command_of (cond (is "choose all" line.now) choose_all
        (cond (begins "choose " line.now) (choose_by (numbers (parts (drop 7 line.now))))
        (cond (is "heap on" line.now) (heap true) (cond (is "heap off" line.now) (heap false) bad)))) }
{
    if ascii::same_bytes(line, b"choose all") {
        return Some(Command::ChooseAll);
    }
    if let Some(indexes) = line.strip_prefix(b"choose ") {
        return choose_command(indexes);
    }
    heap_command(line)
}

// `choose` with this after it.
fn choose_command(text: &[u8]) -> Option<Command>
    ensures { result ≡ command_of (choose_by (numbers (parts text.now))) }
{
    numbers::all_numbers(text).then_some(Command::Choose)
}

// A line that is none of the others.
#[tactic(auto, using(ascii::proofs::Library::same_pointwise), unfolding(ascii::specs::Text::bytes))]
fn heap_command(line: &[u8]) -> Option<Command>
    ensures { result ≡ command_of (cond (is "heap on" line.now) (heap true)
        (cond (is "heap off" line.now) (heap false) bad)) }
{
    if ascii::same_bytes(line, b"heap on") {
        return Some(Command::Heap(true));
    }
    if ascii::same_bytes(line, b"heap off") {
        return Some(Command::Heap(false));
    }
    None
}

// The indexes that a line chooses, each to the place of the list that it names. One that names no place is left
// out, and the other places stay as they were.
pub fn place_indexes(line: &[u8], list: &mut [usize])
    ensures { list.new ≡ in_places list.old (indexes_of (says line.now)) }
{
    if let Some(text) = line.strip_prefix(b"choose ") {
        if numbers::all_numbers(text) {
            numbers::place_numbers(text, list);
        }
    }
}
