// The cursor over a table, its steps and their answers, as plain values, and how a count grows. What a step does is in
// specs/, and the theorem about lists of steps in proofs/Isolation; the crates `table` and `row` have the code, and
// row/proofs/Runs the theorem about it.
#![tactic(auto)]

mod scaled;

ghost use Rattle.std.specs.Prelude.{◌≡◌, ◌+◌, min};
ghost use Rattle.walk.specs.Walk.{stop};

use cell::Cell;
use refusal::Refusal;
pub use scaled::{entry_as, entry_by};

// Where a cursor's count stops.
pub const COUNT_STOP: u32 = u32::MAX;

// The cursor: column c is chosen if bit c of the choice, from the lowest, is set; whether the heap is followed;
// the place, which is a row and the entries passed in it; and the count of the cells handed out.
#[derive(Clone, Copy)]
pub struct TableData {
    pub choice: u64,
    pub heap: bool,
    pub row: u64,
    pub passed: u64,
    pub count: u32,
}

// The two readings: cells as they are stored, and scaled by the factor and the zero of their columns.
#[derive(Clone, Copy)]
pub enum Reading {
    Plain,
    Scaled,
}

// How a read hands out its cells.
#[derive(Clone, Copy)]
pub struct How {
    pub reading: Reading,
}

// An entry of a row's plain list: a cell, or an array of this column that ends past the heap. It is no Result, since
// both are entries, each with its place in the list; only a read that comes to the latter is refused.
#[derive(Clone, Copy)]
pub enum Entry {
    Cell(Cell),
    OutsideHeap { column: usize },
}

// What a step of a cursor by value returns: the cursor after it and its answer. A cell read answers a cell, a row read
// how many cells it stored, both none at the end; a seek answers nothing.
#[derive(Clone, Copy)]
pub struct Stepped<T> {
    pub cursor: TableData,
    pub answer: Result<T, Refusal>,
}

// A count with n more cells; it stays at its stop.
pub fn counted(count: u32, n: u64) -> u32
    ensures { result ≡ min stop (count + n) }
{
    count.saturating_add(u32::try_from(n).unwrap_or(COUNT_STOP))
}
