// The checksum of a layout.
ghost use Rattle.std.specs.Prelude.{◌≡◌, ◌<◌, ◌≤◌};
ghost use Rattle.exports.specs.Checksum.{add_words, element_letter, column_words, layout_sum};

use super::checksum::add_word;
use layout::BinTable;
use tform::TFormType;

// The letter of a descriptor's elements; 0 for items. No `From`, since both types are another crate's.
fn element_letter(form: TFormType) -> u8
    ensures { result ≡ element_letter form }
{
    match form {
        TFormType::Items(_) => 0,
        TFormType::P(ty) | TFormType::Q(ty) => tform::letter(ty),
    }
}

#[tactic(auto, using(crate::proofs::Sums::words_folded))]
fn add_bytes(sum: u32, text: &[u8]) -> u32
    ensures { result ≡ add_words sum text.now }
{
    text.iter()
        .fold(sum, |total, byte| add_word(total, *byte as u64))
}

// A column: its letters, count and start, and its name.
#[tactic(auto, unfolding(crate::specs::Checksum::add_words, crate::specs::Checksum::column_words))]
fn add_column(sum: u32, header: &[u8], layout: BinTable, c: usize) -> u32
    requires { c < 64 }
    ensures { result ≡ add_words sum (column_words header.now layout c) }
{
    let column = layout.columns[c];
    let form = column.form;
    let name = layout::column_name(header, layout, c);
    let letter = add_word(sum, tform::form_letter(form) as u64);
    let letters = add_word(letter, element_letter(form) as u64);
    let place = add_word(add_word(letters, column.count as u64), column.start);
    add_bytes(add_word(place, name.len() as u64), name)
}

// The sizes of a layout, then its columns. They go by index, by which `column_name` finds a name.
#[tactic(auto, using(crate::proofs::Sums::sizes_first, crate::proofs::Sums::column_next, crate::proofs::Sums::columns_done))]
pub fn sum_layout(header: &[u8], layout: BinTable) -> u32
    requires { layout.tfields ≤ 64 }
    ensures { result ≡ layout_sum header.now layout }
{
    let mut sum = add_word(0, layout.naxis1);
    sum = add_word(sum, layout.naxis2);
    sum = add_word(sum, layout.pcount);
    sum = add_word(sum, layout.theap);
    sum = add_word(sum, layout.tfields as u64);
    for c in 0..layout.tfields {
        sum = add_column(sum, header, layout, c);
    }
    sum
}
