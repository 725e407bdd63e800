// The checksum, word by word.
ghost use Rattle.std.specs.Prelude.{◌≡◌};
ghost use Rattle.exports.specs.Checksum.{add_word, add_words, two, logical_byte, words, add_cell};

use cell::{Cell, DataValue, Logical};

// A word is below this; a number of 64 bits has two.
pub const WORD_LIMIT: u64 = 1 << 32;

pub fn add_word(sum: u32, word: u64) -> u32
    ensures { result ≡ add_word sum word }
{
    // Of the word only its low half matters.
    sum.wrapping_mul(31)
        .wrapping_add((word % WORD_LIMIT) as u32)
}

// A number of 64 bits: the high word, then the low one.
#[tactic(auto, unfolding(crate::specs::Checksum::add_words))]
fn add_two(sum: u32, n: u64) -> u32
    ensures { result ≡ add_words sum (two n) }
{
    add_word(add_word(sum, n / WORD_LIMIT), n % WORD_LIMIT)
}

// No `From`, since both types are another crate's.
fn logical_byte(value: Logical) -> u8
    ensures { result ≡ logical_byte value }
{
    match value {
        Logical::Yes => b'T',
        Logical::No => b'F',
        Logical::Unset => 0,
        Logical::Odd(byte) => byte,
    }
}

#[tactic(auto, using(crate::proofs::Sums::words_then), unfolding(crate::specs::Checksum::add_words))]
fn add_value(sum: u32, value: DataValue) -> u32
    ensures { result ≡ add_words sum (words value) }
{
    match value {
        DataValue::Unset => sum,
        DataValue::Logical(logical) => add_word(sum, logical_byte(logical) as u64),
        DataValue::Bit(byte) | DataValue::UnsignedByte(byte) | DataValue::Character(byte) => {
            add_word(sum, byte as u64)
        }
        DataValue::Short(n) => add_word(sum, n.cast_unsigned() as u64),
        DataValue::Integer(n) => add_word(sum, n.cast_unsigned() as u64),
        DataValue::Long(n) => add_two(sum, n.cast_unsigned()),
        DataValue::UnsignedLong(n) => add_two(sum, n),
        DataValue::Float { bits, .. } => add_word(sum, bits as u64),
        DataValue::Double { bits, .. } => add_two(sum, bits),
        DataValue::ComplexFloat {
            real_bits,
            imag_bits,
            ..
        } => add_word(add_word(sum, real_bits as u64), imag_bits as u64),
        DataValue::ComplexDouble {
            real_bits,
            imag_bits,
            ..
        } => add_two(add_two(sum, real_bits), imag_bits),
        DataValue::VariableLengthArray32 {
            num_elems,
            offset_byte,
        } => add_word(add_word(sum, num_elems as u64), offset_byte as u64),
        DataValue::VariableLengthArray64 {
            num_elems,
            offset_byte,
        } => add_two(add_two(sum, num_elems), offset_byte),
    }
}

#[tactic(auto, unfolding(crate::specs::Checksum::add_words))]
pub fn add_cell(sum: u32, cell: Cell) -> u32
    ensures { result ≡ add_cell sum cell }
{
    let value = cell.value;
    let place = add_word(add_word(sum, cell.row), cell.column as u64);
    add_value(add_word(place, cell.idx), value)
}
