// ASCII texts: runs of spaces and digits, whether two texts are the same, numbers as text, and texts in a lent
// buffer. All of these answer on any bytes.
#![tactic(auto)]

pub mod buffer;
pub mod digits;

ghost use Rattle.std.specs.Prelude.{◌≡◌, length, take};
ghost use Rattle.ascii.specs.Text.{front, space, digit, spaces, trim, same};

// How many spaces stand at the front.
pub fn leading_spaces(s: &[u8]) -> usize
    ensures { result ≡ front space s.now }
{
    s.iter().take_while(|b| **b == b' ').count()
}

// How many digits stand at the front.
pub fn leading_digits(s: &[u8]) -> usize
    ensures { result ≡ front digit s.now }
{
    s.iter().take_while(|b| b.is_ascii_digit()).count()
}

pub fn all_spaces(s: &[u8]) -> bool
    ensures { result ≡ spaces s.now }
{
    s.iter().all(|b| *b == b' ')
}

// The length without trailing spaces.
pub fn trimmed_len(s: &[u8]) -> usize
    ensures { result ≡ length (trim s.now) }
{
    match s.iter().rposition(|b| *b != b' ') {
        Some(last) => last + 1,
        None => 0,
    }
}

// Whether two runs of bytes are the same, in the words of specs/Text, which `==` and `starts_with` do not have.
#[tactic(auto, using(crate::proofs::Library::same_pointwise))]
pub fn same_bytes(a: &[u8], b: &[u8]) -> bool
    ensures { result ≡ same a.now b.now }
{
    a == b
}

// Whether a text begins with these bytes.
#[tactic(auto, using(crate::proofs::Library::same_swapped))]
pub fn begins_with(text: &[u8], start: &[u8]) -> bool
    ensures { result ≡ same (take (length start.now) text.now) start.now }
{
    text.starts_with(start)
}
