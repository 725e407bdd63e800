// The refusals: their causes, and the number and the place of each (docs/FORMAT.md, section 10).
#![tactic(auto)]

ghost use Rattle.std.specs.Prelude.{◌≡◌, ◌++◌, codes, Some};
ghost use Rattle.std.specs.Fmt.{decimal};
ghost use Rattle.refusal.specs.Refusal.{number_of, place_of};

use std::fmt;

// The causes of a refusal. docs/FORMAT.md, section 10, gives each its number and place. `n` is the number in a name
// that is numbered by column, 0 for one that is not.
#[derive(Clone, Copy)]
pub enum Refusal {
    BadLength,
    MissingEnd,
    RepeatedName { record: usize },
    MissingName { n: usize },
    UnreadableValue { record: usize },
    InvalidValue { record: usize },
    AboveLimit { record: usize },
    BadForm { n: usize },
    RowSizeMismatch,
    // The data area is too short. In the calls that read cells also: the layout breaks a limit or sum, or the
    // cursor does not belong to it.
    Mismatch,
    // Those of the calls after the layout.
    NoColumn,
    NoSuchRow { row: usize },
    ArrayOutsideHeap { column: usize },
    // What was lent is too short for what is needed: a list for the cells of a row read, a buffer for the bytes of a
    // page.
    ShortList { needed: u64 },
    // What is asked for does not suit: the column is missing, not of a type that the call takes, or has a factor or a
    // zero, or there is no such edition.
    Unsuitable,
    // Those of the entry for the scaling and for the null of column n.
    InvalidScaling { n: usize },
    InvalidNull { n: usize },
    // That of turning: the two buffers differ in length, or are too short.
    BufferMismatch,
}

// `refused`, the number and the place.
impl fmt::Display for Refusal {
    ghost output = { λ r. Some (codes "refused " ++ decimal (number_of r) ++ codes " " ++ decimal (place_of r)) };

    fn fmt<W: fmt::Write>(&self, f: &mut fmt::Formatter<W>) -> fmt::Result {
        let number = number(*self);
        let place = place(*self);
        write!(f, "refused {number} {place}")
    }
}

// The number of a refusal. It has a place too, so neither is a `From`.
pub fn number(refusal: Refusal) -> u64
    ensures { result ≡ number_of refusal }
{
    match refusal {
        Refusal::BadLength => 1,
        Refusal::MissingEnd => 2,
        Refusal::RepeatedName { record: _ } => 3,
        Refusal::MissingName { n: _ } => 4,
        Refusal::UnreadableValue { record: _ } => 5,
        Refusal::InvalidValue { record: _ } => 6,
        Refusal::AboveLimit { record: _ } => 7,
        Refusal::BadForm { n: _ } => 8,
        Refusal::RowSizeMismatch => 9,
        Refusal::Mismatch => 10,
        Refusal::NoColumn => 11,
        Refusal::NoSuchRow { row: _ } => 12,
        Refusal::ArrayOutsideHeap { column: _ } => 13,
        Refusal::ShortList { needed: _ } => 14,
        Refusal::Unsuitable => 15,
        Refusal::InvalidScaling { n: _ } => 16,
        Refusal::InvalidNull { n: _ } => 17,
        Refusal::BufferMismatch => 22,
    }
}

// The place of a refusal.
pub fn place(refusal: Refusal) -> u64
    ensures { result ≡ place_of refusal }
{
    match refusal {
        Refusal::BadLength => 0,
        Refusal::MissingEnd => 0,
        Refusal::RepeatedName { record } => record as u64,
        Refusal::MissingName { n } => n as u64,
        Refusal::UnreadableValue { record } => record as u64,
        Refusal::InvalidValue { record } => record as u64,
        Refusal::AboveLimit { record } => record as u64,
        Refusal::BadForm { n } => n as u64,
        Refusal::RowSizeMismatch => 0,
        Refusal::Mismatch => 0,
        Refusal::NoColumn => 0,
        Refusal::NoSuchRow { row } => row as u64,
        Refusal::ArrayOutsideHeap { column } => column as u64,
        Refusal::ShortList { needed } => needed,
        Refusal::Unsuitable => 0,
        Refusal::InvalidScaling { n } => n as u64,
        Refusal::InvalidNull { n } => n as u64,
        Refusal::BufferMismatch => 0,
    }
}
