// The choice of a cursor: which columns are in it, and one that is made of those that are wanted.
ghost use Rattle.std.specs.Prelude.{ℕ, Bool, ◌≡◌, ◌+◌, ◌*◌, ◌≤◌, ◌<◌};
ghost use Rattle.walk.specs.Plain.{chosen};
ghost use Rattle.walk.specs.Step.{Selection, wanted as wanted_by, choice_from};

use layout::TFIELDS_LIMIT;

// Whether column c is in a choice: the row read of `row` asks it too.
pub fn chosen(choice: u64, c: usize) -> bool
    ensures { result ≡ chosen choice c }
{
    c < TFIELDS_LIMIT && (choice >> c) % 2 == 1
}

// Those of a layout's columns that are wanted. `tfields ≤ 64` is no ghost field: anybody can make a layout.
pub fn columns<F: Fn(usize) -> bool>(tfields: usize, wanted: F) -> u64
    requires few { tfields ≤ 64 }
    requires callable { F.IsAlwaysCallable wanted }
    ensures { (s : Selection) → ((c : ℕ) → (is : Bool) → c < 64 → F.post wanted c is → is ≡ wanted_by s c)
        → result ≡ choice_from s 0 tfields }
{
    let mut choice: u64 = 0;
    for c in (0..tfields).rev() {
        choice = choice * 2 + u64::from(wanted(c));
    }
    choice
}
