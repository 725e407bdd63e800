// The numbers of a line.
ghost use Rattle.std.specs.Prelude.{◌≡◌, set, true};
ghost use Rattle.steps.specs.Split.{parts};
ghost use Rattle.steps.specs.Numbers.{numbers, are_numbers};
ghost use Rattle.steps.specs.Line.{choose_by, indexes_of, in_places};

// Whether the parts of a text are all numbers.
#[tactic(auto, using(crate::proofs::Lines::parts_split, crate::proofs::Listing::all_parts))]
pub fn all_numbers(text: &[u8]) -> bool
    ensures { result ≡ are_numbers (numbers (parts text.now)) }
{
    text.split(|byte| *byte == b' ')
        .all(|part| ascii::digits::parse_number(part).is_some())
}

// A number, to the place of a list that it names, if the list has that place.
fn place_number(list: &mut [usize], n: usize)
    ensures { list.new ≡ set list.old n n }
{
    // The contract of `get_mut` says nothing of what the list then ends as, so the place is written by its index.
    if n < list.len() {
        list[n] = n;
    }
}

// The numbers that the parts of a text are, each to the place that it names.
pub fn place_numbers(text: &[u8], list: &mut [usize])
    requires { are_numbers (numbers (parts text.now)) ≡ true }
    ensures { list.new ≡ in_places list.old (indexes_of (choose_by (numbers (parts text.now)))) }
{
    for part in text.split(|byte| *byte == b' ') {
        if let Some(n) = ascii::digits::parse_number(part) {
            place_number(list, n);
        }
    }
}
