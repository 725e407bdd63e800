// The form of a column: what its items are and how many, and the bytes that they take in a row.
#![tactic(auto)]

mod parsing;

ghost use Rattle.std.specs.Prelude.{◌≡◌};
ghost use Rattle.tform.specs.Width.{letter, form_letter, letter_width, can_scale, can_have_null, items, field_items, field_bytes};
ghost use Rattle.tform.specs.Width.{count_ok};
ghost use Rattle.tform.specs.Form.{counted, form_of};

// The largest count of a form of items.
const COUNT_LIMIT: u32 = 8388608;

// What one item is, in a column or in an array of the heap.
#[derive(Clone, Copy)]
pub enum VariableArrayTy {
    L,
    X,
    B,
    I,
    J,
    K,
    A,
    E,
    D,
    C,
    M,
}

// The form of a column: items, or descriptors of 32-bit or 64-bit numbers, which carry the form of their arrays'
// elements inside. The count, 0 or 1 of descriptors, stands beside it, in the column.
#[derive(Clone, Copy)]
pub enum TFormType {
    Items(VariableArrayTy),
    P(VariableArrayTy),
    Q(VariableArrayTy),
}

// The value of TFORMn: a form and the count before its letter. The calls below take the two apart, since a column has
// them so, which callers and theorems read.
#[derive(Clone, Copy)]
pub struct TForm {
    pub form: TFormType,
    pub count: u32,
}

// The bytes of one item, or of one descriptor, by the form's letter; 0 and no Option for any other byte, as the
// definition has it (docs/DECISIONS.md).
#[tactic(auto, unfolding(crate::specs::Width::letter_width, crate::specs::Width::among, ascii::specs::Text::bytes))]
pub fn item_width(letter: u8) -> u8
    ensures { result ≡ letter_width letter }
{
    match letter {
        b'L' | b'X' | b'B' | b'A' => 1,
        b'I' => 2,
        b'J' | b'E' => 4,
        b'K' | b'D' | b'C' | b'P' => 8,
        b'M' | b'Q' => 16,
        _ => 0,
    }
}

// The letter of an item. No `From`: a `u8` of an item could as well be its width.
pub fn letter(ty: VariableArrayTy) -> u8
    ensures { result ≡ letter ty }
{
    match ty {
        VariableArrayTy::L => b'L',
        VariableArrayTy::X => b'X',
        VariableArrayTy::B => b'B',
        VariableArrayTy::I => b'I',
        VariableArrayTy::J => b'J',
        VariableArrayTy::K => b'K',
        VariableArrayTy::A => b'A',
        VariableArrayTy::E => b'E',
        VariableArrayTy::D => b'D',
        VariableArrayTy::C => b'C',
        VariableArrayTy::M => b'M',
    }
}

// The bytes of one item, by its type.
pub fn width(ty: VariableArrayTy) -> u64
    ensures { result ≡ letter_width (letter ty) }
{
    item_width(letter(ty)) as u64
}

// The letter of a form, a function as that of an item is.
pub fn form_letter(form: TFormType) -> u8
    ensures { result ≡ form_letter form }
{
    match form {
        TFormType::Items(ty) => letter(ty),
        TFormType::P(_) => b'P',
        TFormType::Q(_) => b'Q',
    }
}

// Whether a column's numbers may be scaled: a descriptor's type is that of its elements.
#[tactic(auto, unfolding(crate::specs::Width::can_scale, crate::specs::Width::among, ascii::specs::Text::bytes))]
pub fn can_scale(form: TFormType) -> bool
    ensures { result ≡ can_scale form }
{
    let (TFormType::Items(ty) | TFormType::P(ty) | TFormType::Q(ty)) = form;
    matches!(letter(ty), b'B' | b'I' | b'J' | b'K' | b'E' | b'D')
}

// Whether one of its numbers may stand for a missing value.
#[tactic(auto, unfolding(crate::specs::Width::can_have_null, crate::specs::Width::among, ascii::specs::Text::bytes))]
pub fn can_have_null(form: TFormType) -> bool
    ensures { result ≡ can_have_null form }
{
    let (TFormType::Items(ty) | TFormType::P(ty) | TFormType::Q(ty)) = form;
    matches!(letter(ty), b'B' | b'I' | b'J' | b'K')
}

// How many items a count stands for: bits are eight to an item.
pub fn item_count(ty: VariableArrayTy, count: u64) -> u64
    ensures { result ≡ items ty count }
{
    match ty {
        VariableArrayTy::X => count / 8 + (count % 8 + 7) / 8,
        _ => count,
    }
}

// How many items a field has. P and Q count descriptors: of count 0 there is none.
pub fn field_items(form: TFormType, count: u32) -> u64
    ensures { result ≡ field_items form count }
{
    match form {
        TFormType::Items(ty) => item_count(ty, count as u64),
        TFormType::P(_) | TFormType::Q(_) => count as u64,
    }
}

// The bytes of a field in a row. With the items taken first the cell read's pass is slower (docs/SPEED.md).
pub fn num_bytes_field(form: TFormType, count: u32) -> u64
    ensures { result ≡ field_bytes form count }
{
    let width = item_width(form_letter(form)) as u64;
    field_items(form, count) * width
}

// The same, under the name that a caller of landings 6 to 8 has it by.
pub fn field_bytes(form: TFormType, count: u32) -> u64
    ensures { result ≡ field_bytes form count }
{
    num_bytes_field(form, count)
}

// Whether a count is within its limit: a field of P or Q is one descriptor or none. A count that every form may have
// is seen first, so that most columns need no look at the form (docs/SPEED.md).
pub fn count_ok(form: TFormType, count: u32) -> bool
    ensures { result ≡ count_ok form count }
{
    if count <= 1 {
        return true;
    }
    match form {
        TFormType::Items(_) => count <= COUNT_LIMIT,
        TFormType::P(_) | TFormType::Q(_) => false,
    }
}

// A form with its count, unless that is too large.
fn counted(form: TFormType, count: u32) -> Option<TForm>
    ensures { result ≡ counted count (Some form) }
{
    if count_ok(form, count) {
        Some(TForm { form, count })
    } else {
        None
    }
}

// The form that a text is: digits, a letter, and a rest that is ignored. None where it is a bad one.
pub fn parse_tform(text: &[u8]) -> Option<TForm>
    ensures { result ≡ form_of text.now }
{
    let (digits, rest) = text.split_at(ascii::leading_digits(text));
    let form = parsing::kind_of(rest)?;
    counted(form, parsing::repeat_count(digits))
}
