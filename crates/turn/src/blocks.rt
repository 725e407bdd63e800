// The turning itself, block by block: what a block is read from and where it goes stay in the processor's cache.
ghost use Rattle.std.specs.Prelude.{◌≡◌, ℕ, ◌+◌, ◌*◌, ◌<◌, ◌≤◌, length, slice_index};
ghost use Rattle.turn.specs.Turn.{turned};
ghost use Rattle.turn.specs.Blocks.{IsBlock, Holds, Placed, Kept};

// The largest block.
const BLOCK_ROWS: usize = 256;

const BLOCK_PLACES: usize = 64;

const TILE_SIZE: usize = BLOCK_ROWS * BLOCK_PLACES;

// Rows up to this width lie close enough together to be read where they are.
const NARROW_WIDTH: usize = 16;

// A table of up to this many rows is turned row by row, at as many places at a time as make a tile of them.
const FEW_ROWS: usize = 16;

const FEW_PLACES: usize = TILE_SIZE / FEW_ROWS;

// The rows that are turned, and the bytes that begin with them.
#[derive(Clone, Copy)]
struct Table<'a> {
    rows: usize,
    width: usize,
    bytes: &'a [u8],
}

// Some rows that follow one another, and some places in each.
#[derive(Clone, Copy)]
struct Block {
    first_row: usize,
    rows: usize,
    first_place: usize,
    places: usize,
}

// Every `stride`-th byte, from the first on.
fn gather(source: &[u8], stride: usize, out: &mut [u8])
    requires { (k : ℕ) → k < length out.old → k * stride < length source.now }
    ensures { (k : ℕ) → k < length out.new
        → slice_index out.new k ≡ slice_index source.now (k * stride) }
{
    for (i, byte) in out.iter_mut().enumerate() {
        *byte = source[i * stride];
    }
}

// Copies a block to a tile, whose rows have `BLOCK_PLACES` bytes, however far apart those of the table are.
fn load_block(table: Table, block: Block, tile: &mut [u8; TILE_SIZE])
    requires in_table { IsBlock table block }
    requires rows { block.rows ≤ BLOCK_ROWS }
    requires places { block.places ≤ BLOCK_PLACES }
    ensures { Holds table.entry block BLOCK_PLACES tile.new }
{
    for r in 0..block.rows {
        let at = (block.first_row + r) * table.width + block.first_place;
        let start = r * BLOCK_PLACES;
        tile[start..start + block.places].copy_from_slice(&table.bytes[at..at + block.places]);
    }
}

// Writes a block's bytes where they go, place by place. `source` has them, each row `stride` bytes after the one
// before.
fn store_block(table: Table, block: Block, source: &[u8], stride: usize, to: &mut [u8])
    requires in_table { IsBlock table block }
    requires held { Holds table block stride source.now }
    requires room { table.rows * table.width ≤ length to.old }
    ensures kept { Kept table.entry to.old to.new }
    ensures placed { Placed table.entry block.first_row (block.first_row + block.rows)
        block.first_place (block.first_place + block.places) to.new }
{
    for p in 0..block.places {
        let at = (block.first_place + p) * table.rows + block.first_row;
        gather(&source[p..], stride, &mut to[at..at + block.rows]);
    }
}

// Turns some rows, block by block, or as one block where they are narrow.
fn turn_band(table: Table, first_row: usize, rows: usize, tile: &mut [u8; TILE_SIZE], to: &mut [u8])
    requires inside { table.rows * table.width ≤ length table.bytes.now }
    requires some { 0 < rows }
    requires few { rows ≤ BLOCK_ROWS }
    requires in_table { first_row + rows ≤ table.rows }
    requires room { table.rows * table.width ≤ length to.old }
    ensures kept { Kept table.entry to.old to.new }
    ensures placed { Placed table.entry first_row (first_row + rows) 0 table.entry.width to.new }
{
    let width = table.width;
    if width <= NARROW_WIDTH {
        let block = Block {
            first_row,
            rows,
            first_place: 0,
            places: width,
        };
        store_block(table, block, &table.bytes[first_row * width..], width, to);
        return;
    }
    let mut first_place = 0;
    while first_place < width {
        let places = BLOCK_PLACES.min(width - first_place);
        let block = Block {
            first_row,
            rows,
            first_place,
            places,
        };
        load_block(table, block, tile);
        store_block(table, block, tile, BLOCK_PLACES, to);
        first_place += places;
    }
}

// Writes a row's bytes at the places from `first` up to `end` where they go.
fn scatter_row(table: Table, row: usize, first: usize, end: usize, to: &mut [u8])
    requires inside { table.rows * table.width ≤ length table.bytes.now }
    requires row { row < table.rows }
    requires places { end ≤ table.width }
    requires room { table.rows * table.width ≤ length to.old }
    ensures kept { Kept table.entry to.old to.new }
    ensures placed { Placed table.entry row (row + 1) first end to.new }
{
    for p in first..end {
        to[p * table.rows + row] = table.bytes[row * table.width + p];
    }
}

// Writes each row's bytes at the places from `first` up to `end` where they go.
fn scatter_rows(table: Table, first: usize, end: usize, to: &mut [u8])
    requires inside { table.rows * table.width ≤ length table.bytes.now }
    requires places { end ≤ table.width }
    requires room { table.rows * table.width ≤ length to.old }
    ensures kept { Kept table.entry to.old to.new }
    ensures placed { Placed table.entry 0 table.entry.rows first end to.new }
{
    for row in 0..table.rows {
        scatter_row(table, row, first, end, to);
    }
}

// Turns a table of few rows. To gather them at each place would be a loop over a few bytes, so each row's bytes are
// scattered.
fn turn_few(table: Table, to: &mut [u8])
    requires inside { table.rows * table.width ≤ length table.bytes.now }
    requires room { table.rows * table.width ≤ length to.old }
    ensures { Placed table.entry 0 table.entry.rows 0 table.entry.width to.new }
{
    let mut first_place = 0;
    while first_place < table.width {
        let end = first_place + FEW_PLACES.min(table.width - first_place);
        scatter_rows(table, first_place, end, to);
        first_place = end;
    }
}

// Turns all rows, band by band, or row by row where they are few.
fn turn_rows(table: Table, to: &mut [u8])
    requires inside { table.rows * table.width ≤ length table.bytes.now }
    requires room { table.rows * table.width ≤ length to.old }
    ensures { Placed table.entry 0 table.entry.rows 0 table.entry.width to.new }
{
    let rows = table.rows;
    if rows <= FEW_ROWS {
        turn_few(table, to);
        return;
    }
    let mut tile = [0; TILE_SIZE];
    let mut first_row = 0;
    while first_row < rows {
        let band = BLOCK_ROWS.min(rows - first_row);
        turn_band(table, first_row, band, &mut tile, to);
        first_row += band;
    }
}

// Byte p of row r goes to p * rows + r; what follows the rows is copied.
pub fn copy_turned(rows: usize, width: usize, from: &[u8], to: &mut [u8])
    requires inside { rows * width ≤ length from.now }
    requires same { length from.now ≡ length to.old }
    ensures { to.new ≡ turned rows width from.now }
{
    let table = Table {
        rows,
        width,
        bytes: from,
    };
    turn_rows(table, to);
    let main = rows * width;
    to[main..].copy_from_slice(&from[main..]);
}
