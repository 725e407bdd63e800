// The used names of a header and their places (docs/FORMAT.md, section 4).
#![tactic(auto)]

ghost use Rattle.std.specs.Prelude.{ℕ, ◌≡◌, [], ◌++◌, cond, ◌+◌, ◌*◌, ◌≤◌, ◌<◌, ltb, length, take, get_or};
ghost use mathlib.Core.List.{map};
ghost use Rattle.keyword.specs.Names.{index_limit, column_slots, once_roots, roots, slot_names, once_names};
ghost use Rattle.keyword.specs.Names.{position, further, single, numeral, range, text_of, root_text};

// Where a name stands: its slot, and its place among the names that must not stand twice (specs/Names).
#[derive(Clone, Copy)]
pub struct Places {
    pub slot: Option<usize>,
    pub once: Option<usize>,
}

// A name is used for n up to the first, and has a slot for n up to the second: the columns that this reader takes.
pub const INDEX_LIMIT: usize = 999;

pub const COLUMN_SLOTS: usize = 64;

// How many digits such an n has at most.
const INDEX_DIGITS: usize = 3;

// The names that are not numbered by column. They have the first slots, in the order of this list.
#[derive(Clone, Copy)]
pub enum Keyword {
    Xtension,
    Bitpix,
    Naxis,
    Naxis1,
    Naxis2,
    Pcount,
    Gcount,
    Tfields,
    Theap,
}

impl Keyword {
    // The slot of the name.
    pub fn slot(self) -> usize
        ensures name { get_or slot_names result [] ≡ text_of self }
        ensures inside { result < length slot_names }
    {
        self as usize
    }

    // The text of the name.
    #[tactic(auto, unfolding(ascii::specs::Text::bytes))]
    pub fn text(self) -> &'static [u8]
        ensures { result.now ≡ text_of self }
    {
        SINGLE_NAMES[self as usize]
    }
}

// How many these are.
const SINGLE: usize = 9;

// Their texts, each in the place of its slot.
const SINGLE_NAMES: [&[u8]; SINGLE] = [
    b"XTENSION",
    b"BITPIX",
    b"NAXIS",
    b"NAXIS1",
    b"NAXIS2",
    b"PCOUNT",
    b"GCOUNT",
    b"TFIELDS",
    b"THEAP",
];

// The texts of the roots of the numbered names, and how long each is.
const ROOTS: [&[u8]; 5] = [b"TFORM", b"TTYPE", b"TSCAL", b"TZERO", b"TNULL"];

const ROOT_BYTES: usize = 5;

// The roots of the numbered names, in the order of their slots, which come after those of the others.
#[derive(Clone, Copy)]
pub enum Root {
    Tform,
    Ttype,
    Tscal,
    Tzero,
    Tnull,
}

impl Root {
    // The slot of the name with n = 1; those of n up to COLUMN_SLOTS follow.
    pub fn first_slot(self) -> usize
        ensures names { (k : ℕ) → k < column_slots
            → get_or slot_names (result + k) [] ≡ root_text self ++ numeral (k + 1) }
        ensures inside { result + column_slots ≤ length slot_names }
    {
        SINGLE + self as usize * COLUMN_SLOTS
    }
}

// How many slots there are.
pub const SLOTS: usize = SINGLE + ROOTS.len() * COLUMN_SLOTS;

// How many roots, from the front, have names that must not stand twice, and how many such names there are.
const ONCE_ROOTS: usize = 2;

pub const ONCE: usize = SINGLE + ONCE_ROOTS * INDEX_LIMIT;

// The digits of 1 to INDEX_LIMIT, without leading zeros, as a place counted from 0.
fn keyword_index(s: &[u8]) -> Option<usize>
    ensures { result ≡ position s.now (map numeral (range 1 index_limit)) }
{
    if INDEX_DIGITS < s.len() || s.starts_with(b"0") {
        return None;
    }
    let n = ascii::digits::parse_number(s)?;
    Some(n - 1)
}

// The place among the nine names that are not numbered by column.
fn single_slot(name: &[u8]) -> Option<usize>
    ensures { result ≡ position name.now single }
{
    SINGLE_NAMES.iter().position(|single| *single == name)
}

// The place among the roots of the one that a name begins with.
fn root_of(name: &[u8]) -> Option<usize>
    ensures { result ≡ position (take 5 name.now) roots }
{
    ROOTS.iter().position(|root| name.starts_with(*root))
}

// The slot of root r with n = k + 1.
#[tactic(auto, unfolding(crate::specs::Names::single, crate::specs::Names::once_roots, crate::specs::Names::other_roots))]
fn indexed_slot(r: usize, k: usize) -> Option<usize>
    requires { (r < length roots) × (k < index_limit) }
    ensures { result ≡ further (length single + r * column_slots) (cond (ltb k column_slots) (Some k) None) }
{
    (k < COLUMN_SLOTS).then_some(SINGLE + r * COLUMN_SLOTS + k)
}

// Its place among the names that must not stand twice. Two functions: one asks of n, the other of the root.
#[tactic(auto, unfolding(crate::specs::Names::single, crate::specs::Names::once_roots, crate::specs::Names::other_roots))]
fn indexed_once(r: usize, k: usize) -> Option<usize>
    requires { k < index_limit }
    ensures { result ≡ cond (ltb r (length once_roots)) (Some (length single + r * index_limit + k)) None }
{
    // No `then_some`, which computes the place of a root that is above the limit too.
    if r < ONCE_ROOTS {
        return Some(SINGLE + r * INDEX_LIMIT + k);
    }
    None
}

// The places of a name that has no root in front.
fn single_places(name: &[u8]) -> Places
    ensures slot { result.slot ≡ position name.now single }
    ensures once { result.once ≡ position name.now single }
{
    let found = single_slot(name);
    Places {
        slot: found,
        once: found,
    }
}

// The places of a name. No single name has a root in front, so the first five bytes tell where to look.
pub fn locate(name: &[u8]) -> Places
    ensures slot { result.slot ≡ position name.now slot_names }
    ensures once { result.once ≡ position name.now once_names }
{
    let Some(r) = root_of(name) else {
        return single_places(name);
    };
    let Some(k) = keyword_index(&name[ROOT_BYTES..]) else {
        return Places {
            slot: None,
            once: None,
        };
    };
    Places {
        slot: indexed_slot(r, k),
        once: indexed_once(r, k),
    }
}
