// A line that is put together piece by piece, in memory of a fixed size: the library has no heap. A function that puts
// several pieces asks for the room that its own pieces need, so that none is left out. A line is not written by
// `write!`, which says what was written only where it succeeds, and a line that has room is always written.
ghost use Rattle.std.specs.Prelude.{◌≡◌, ℕ, ◌+◌, ◌≤◌, List, [], ◌++◌, length, take};
ghost use Rattle.ascii.specs.Number.{decimal_text};
ghost use Rattle.ascii.specs.Buffer.{written, written_to};
ghost use Rattle.listing.specs.Writer.{room, appended};

use std::marker::Model;

// The most bytes of a line. A name of a column, which may be longer, does not go through a writer.
const ROOM: usize = 130;

// What was written is the first `len` bytes of the array.
#[derive(Drop)]
pub struct Writer {
    bytes: [u8; ROOM],
    len: usize,
}

impl Model for Writer {
    ghost Value = { List ℕ };

    ghost view = { λ w. take w.len w.bytes };

    ghost invariant = { λ w. w.len ≤ room };
}

impl Writer {
    pub fn new() -> Self
        ensures { result ≡ [] }
    {
        Writer {
            bytes: [0; ROOM],
            len: 0,
        }
    }

    // What was written.
    pub fn text(&self) -> &[u8]
        ensures { result.now ≡ self.now }
    {
        &self.bytes[..self.len]
    }

    // Puts a text at the end, or leaves it out where there is no room for all of it.
    #[tactic(auto, using(crate::proofs::Written::put_steps))]
    pub fn put(&mut self, text: &[u8])
        ensures whole { self.new ≡ appended self.old text.now }
        ensures text { length self.old + length text.now ≤ room → self.new ≡ self.old ++ text.now }
        ensures len { length self.new ≤ length self.old + length text.now }
    {
        self.len = ascii::buffer::put(&mut self.bytes, self.len, text);
    }

    // The same with a number in decimal, which has 20 digits at most. They go straight to the array: to put them by
    // `put`, from an array of their own, is no plainer.
    #[tactic(auto, using(crate::proofs::Written::put_steps))]
    pub fn put_number(&mut self, number: u64)
        ensures whole { self.new ≡ appended self.old (decimal_text number) }
        ensures text { length self.old + 20 ≤ room → self.new ≡ self.old ++ decimal_text number }
        ensures len { length self.new ≤ length self.old + 20 }
    {
        self.len = ascii::digits::put_decimal(&mut self.bytes, self.len, number);
    }

    // Copies what was written to a lent buffer from a place on, if there is room for all of it.
    pub fn put_to(&self, out: &mut [u8], at: usize) -> Option<usize>
        ensures to { result ≡ written_to out.old at self.now }
        ensures buffer { out.new ≡ written out.old at self.now }
    {
        ascii::buffer::put_text(out, at, self.text())
    }
}
