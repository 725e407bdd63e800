// Texts in a lent buffer, each from a place on. A text that there is no room for leaves all of the buffer as it was.
// The buffer and the place go apart, since the library has no heap and a caller holds a buffer of its own.
ghost use Rattle.std.specs.Prelude.{◌≡◌, ◌+◌, ◌≤◌, leb, length, replicate};
ghost use Rattle.ascii.specs.Number.{right_aligned};
ghost use Rattle.ascii.specs.Buffer.{put_in, written, written_to, place_after};

// Whether n bytes from a place on end within a buffer. The sum of the two could wrap.
fn has_room(len: usize, at: usize, n: usize) -> bool
    ensures { result ≡ leb (at + n) len }
{
    len.checked_sub(at).is_some_and(|left| n <= left)
}

// Copies a text that there is room for.
fn copy(out: &mut [u8], at: usize, text: &[u8]) -> usize
    requires { at + length text.now ≤ length out.old }
    ensures place { result ≡ at + length text.now }
    ensures buffer { out.new ≡ put_in out.old at text.now }
{
    let end = at + text.len();
    out[at..end].copy_from_slice(text);
    end
}

// Spaces that there is room for.
fn fill_spaces(out: &mut [u8], at: usize, n: usize)
    requires { at + n ≤ length out.old }
    ensures { out.new ≡ put_in out.old at (replicate n 32) }
{
    out[at..at + n].fill(b' ');
}

// Writes a text from a place of the buffer on, the rest of it as it was, and gives the place after it.
#[tactic(auto, using(crate::proofs::Chain::place_of))]
pub fn put(out: &mut [u8], at: usize, text: &[u8]) -> usize
    ensures place { result ≡ place_after out.old at text.now }
    ensures buffer { out.new ≡ written out.old at text.now }
{
    put_text(out, at, text).unwrap_or(at)
}

// The same, and tells whether there was room.
pub fn put_text(out: &mut [u8], at: usize, text: &[u8]) -> Option<usize>
    ensures to { result ≡ written_to out.old at text.now }
    ensures buffer { out.new ≡ written out.old at text.now }
{
    if has_room(out.len(), at, text.len()) {
        return Some(copy(out, at, text));
    }
    None
}

// Writes a text that ends at the end of a field of this width, with spaces in front; a longer one as it is. As
// `put` does.
pub fn put_right(out: &mut [u8], at: usize, width: usize, text: &[u8]) -> usize
    ensures place { result ≡ place_after out.old at (right_aligned width text.now) }
    ensures buffer { out.new ≡ written out.old at (right_aligned width text.now) }
{
    if !has_room(out.len(), at, width.max(text.len())) {
        return at;
    }
    let spaces = width.saturating_sub(text.len());
    fill_spaces(out, at, spaces);
    copy(out, at + spaces, text)
}
