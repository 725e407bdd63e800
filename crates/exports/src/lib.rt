// Checksums of the cells that reads hand out, and of a layout, a table's bytes turned, and a profile page, for the
// benchmark and the oracle to call: a layout and a cell hold enums, which cannot be passed to C or Rust. Each sum has
// the number of a refusal above its 32 bits, or 0.
#![tactic(auto)]

mod cells;
mod checksum;
mod columns;
mod refusals;
mod rows;

ghost use Rattle.std.specs.Prelude.{◌≡◌, IfOk, length, take};
ghost use Rattle.refusal.specs.Refusal.{before, outcome_of};
ghost use Rattle.bintable.specs.Entry.{entry, layout_in, all_checks};
ghost use Rattle.walk.specs.Step.{listed, open_with};
ghost use Rattle.ascii.specs.Buffer.{put_in};
ghost use Rattle.output.specs.Cells.{file_limit};
ghost use Rattle.output.specs.Replay.{replay_lines};
ghost use Rattle.output.specs.Page.{page_text};
ghost use Rattle.exports.specs.declared.Start.{Start};
ghost use Rattle.exports.specs.Checksum.{entry_sum};
ghost use Rattle.exports.specs.Reads.{by_cells, by_rows, list_length, table_reads, reads_sum};
ghost use Rattle.walk.specs.Readings.{reading_by};
ghost use Rattle.exports.specs.Turning.{turn_number, turn_buffer, turn_back_buffer};
ghost use Rattle.exports.specs.Page.{page_number, page_buffer};

use layout::BinTable;
use refusal::Refusal;
use walk::{How, Reading, TableData};

// A table and the cursor on it.
#[derive(Clone, Copy)]
struct Start {
    layout: BinTable,
    cursor: TableData,
}

// The entry and opening, or the first refusal. Header, area, columns and heap go apart, as C passes them.
fn open_table(header: &[u8], area: &[u8], cols: &[usize], heap: bool) -> Result<Start, Refusal>
    ensures check { outcome_of result
        ≡ before (all_checks header.now area.now)
        (open_with (layout_in (entry header.now area.now)) area.now (listed cols.now) heap).outcome }
    ensures start { IfOk result (λ (s : Start). (s.layout ≡ layout_in (entry header.now area.now))
        × (s.cursor ≡ (open_with s.layout area.now (listed cols.now) heap).cursor)) }
{
    let layout = bintable::parse(header, area)?;
    let cursor = table::select_fields(layout, area, cols, heap)?;
    Ok(Start { layout, cursor })
}

// The sum of the cells that cell reads of the chosen columns hand out, with the cursor by value
// or lent.
fn sum_table<const LENT: bool>(
    header: &[u8],
    area: &[u8],
    cols: &[usize],
    heap: bool,
    how: How,
) -> u64
    ensures { result ≡ reads_sum (table_reads by_cells header.now area.now cols.now heap how.reading) }
{
    match open_table(header, area, cols, heap) {
        Ok(Start { layout, cursor }) => cells::sum_cells::<LENT>(layout, area, cursor, how),
        Err(refusal) => refusals::refused(0, refusal),
    }
}

// A read in the reading that a caller names: the second one where it is `scaled`.
fn how_by(scaled: bool) -> How
    ensures { result.reading ≡ reading_by scaled }
{
    let reading = if scaled {
        Reading::Scaled
    } else {
        Reading::Plain
    };
    How { reading }
}

// The checksum of the cells that cell reads of the chosen columns hand out, with the cursor by value.
#[unsafe(no_mangle)]
pub extern "C" fn coentrift_sum_cells(
    header: &[u8],
    area: &[u8],
    cols: &[usize],
    heap: bool,
    scaled: bool,
) -> u64
    ensures { result
        ≡ reads_sum (table_reads by_cells header.now area.now cols.now heap (reading_by scaled)) }
{
    sum_table::<false>(header, area, cols, heap, how_by(scaled))
}

// The same, with the cursor lent.
#[unsafe(no_mangle)]
pub extern "C" fn coentrift_sum_lent(
    header: &[u8],
    area: &[u8],
    cols: &[usize],
    heap: bool,
    scaled: bool,
) -> u64
    ensures { result
        ≡ reads_sum (table_reads by_cells header.now area.now cols.now heap (reading_by scaled)) }
{
    sum_table::<true>(header, area, cols, heap, how_by(scaled))
}

// The checksum of the cells that row reads store. One list of 512 cells is lent to all; a row with more is refused. It
// is another way to read, with another contract, so its match is its own.
#[unsafe(no_mangle)]
pub extern "C" fn coentrift_sum_rows(
    header: &[u8],
    area: &[u8],
    cols: &[usize],
    heap: bool,
    scaled: bool,
) -> u64
    ensures { result
        ≡ reads_sum (table_reads (by_rows list_length) header.now area.now cols.now heap (reading_by scaled)) }
{
    match open_table(header, area, cols, heap) {
        Ok(Start { layout, cursor }) => rows::sum_rows(layout, area, cursor, how_by(scaled)),
        Err(refusal) => refusals::refused(0, refusal),
    }
}

// The checksum of the layout. It opens nothing, so its match is its own too.
#[tactic(auto, using(crate::proofs::Opened::few_accepted))]
#[unsafe(no_mangle)]
pub extern "C" fn coentrift_layout(header: &[u8], area: &[u8]) -> u64
    ensures { result ≡ entry_sum header.now (entry header.now area.now) }
{
    match bintable::parse(header, area) {
        Ok(layout) => columns::sum_layout(header, layout) as u64,
        Err(refusal) => refusals::refused(0, refusal),
    }
}

// The first page of the text that `replay` prints of a file and its steps; the result is its length.
#[unsafe(no_mangle)]
pub extern "C" fn coentrift_replay(file: &[u8], steps: &[u8], out: &mut [u8]) -> usize
    ensures len { result ≡ length (page_text (length out.old) (replay_lines file.now (take file_limit steps.now))) }
    ensures buffer { out.new
        ≡ put_in out.old 0 (page_text (length out.old) (replay_lines file.now (take file_limit steps.now))) }
{
    output::replay_text(file, steps, out)
}

// The entry, then `turn::turn`: the data area turned, to another buffer. The result is the number of a refusal of
// either, or 0; the buffer is as it was where one refuses.
#[unsafe(no_mangle)]
pub extern "C" fn coentrift_turn(header: &[u8], from: &[u8], to: &mut [u8]) -> u64
    ensures number { result ≡ turn_number (entry header.now from.now) from.now to.old }
    ensures buffer { to.new ≡ turn_buffer (entry header.now from.now) from.now to.old }
{
    match bintable::parse(header, from) {
        Ok(layout) => refusals::number(turn::turn(layout, from, to)),
        Err(refusal) => refusal::number(refusal),
    }
}

// The same with `turn::turn_back`: a turned data area as it was.
#[unsafe(no_mangle)]
pub extern "C" fn coentrift_turn_back(header: &[u8], from: &[u8], to: &mut [u8]) -> u64
    ensures number { result ≡ turn_number (entry header.now from.now) from.now to.old }
    ensures buffer { to.new ≡ turn_back_buffer (entry header.now from.now) from.now to.old }
{
    match bintable::parse(header, from) {
        Ok(layout) => refusals::number(turn::turn_back(layout, from, to)),
        Err(refusal) => refusal::number(refusal),
    }
}

// The entry, then `profile::put_page`: the page of a row of an E column. The result is the number of its bytes, below
// 2^32, or the number of a refusal of either above 32 bits of 0, as of `coentrift_layout`; the buffer is as it was
// where one refuses.
#[unsafe(no_mangle)]
pub extern "C" fn coentrift_page(
    header: &[u8],
    area: &[u8],
    column: usize,
    row: usize,
    edition: u64,
    page: &mut [u8],
) -> u64
    ensures number { result ≡ page_number (entry header.now area.now) area.now column row edition (length page.old) }
    ensures buffer { page.new ≡ page_buffer (entry header.now area.now) area.now column row edition page.old }
{
    match bintable::parse(header, area) {
        Ok(layout) => refusals::page_number(profile::put_page(
            layout, area, column, row, edition, page,
        )),
        Err(refusal) => refusals::refused(0, refusal),
    }
}
