// One item of a field or of a heap array and its value, and the array that a descriptor names.
#![tactic(auto)]

pub mod floats;
mod scaled;
pub mod words;

ghost use Rattle.std.specs.Prelude.{◌≡◌, cond, ◌+◌, ◌*◌, ◌≤◌, SomeIff};
ghost use Rattle.cell.specs.declared.DataValue.TheVariants.{Unset};
ghost use Rattle.cell.specs.Item.{width, logical, raw_item, is_null, value_in, item, blank_cell};
ghost use Rattle.cell.specs.Field.{no_items, array, field32, field64, field, size_of};

use layout::{Column, Null};
pub use scaled::scaled_value;
use std::num;
use tform::{TFormType, VariableArrayTy};

// An L item: 84, 70 and 0 have a meaning, any other byte is kept as it is.
#[derive(Clone, Copy)]
pub enum Logical {
    Yes,
    No,
    Unset,
    Odd(u8),
}

// The value of a cell. A float stands beside its stored bits: there is one NaN, and only the bits keep a stored
// one's payload.
#[derive(Clone, Copy)]
pub enum DataValue {
    // A missing value: the stored number is the null of the column.
    Unset,
    Logical(Logical),
    Bit(u8),
    UnsignedByte(u8),
    Short(i16),
    Integer(i32),
    Long(i64),
    // Of scaled values alone.
    UnsignedLong(u64),
    Character(u8),
    Float {
        value: f32,
        bits: u32,
    },
    Double {
        value: f64,
        bits: u64,
    },
    ComplexFloat {
        real: f32,
        real_bits: u32,
        imag: f32,
        imag_bits: u32,
    },
    ComplexDouble {
        real: f64,
        real_bits: u64,
        imag: f64,
        imag_bits: u64,
    },
    VariableLengthArray32 {
        num_elems: u32,
        offset_byte: u32,
    },
    VariableLengthArray64 {
        num_elems: u64,
        offset_byte: u64,
    },
}

// A value with its row, its column and its index in the field or in the array.
#[derive(Clone, Copy)]
pub struct Cell {
    pub row: u64,
    pub column: usize,
    pub idx: u64,
    pub value: DataValue,
}

// What a field stands for: n items from byte `at` of the data area on, a descriptor that is not followed, or
// an array that ends past the heap. It is no Result, since the last has an entry in the row's plain list too.
#[derive(Clone, Copy)]
pub enum Field {
    Items {
        ty: VariableArrayTy,
        at: u64,
        n: u64,
    },
    Descriptor(DataValue),
    OutsideHeap,
}

// The heap of a table, followed or not, from its first byte up to, and without, byte `end` of the data area. No Option
// round the rest: `array` takes it whole, and answers of one that is not followed too.
#[derive(Clone, Copy)]
pub struct Heap {
    pub followed: bool,
    pub start: u64,
    pub end: u64,
}

// A cell of zeros, to fill a list with before it is lent.
pub fn blank_cell() -> Cell
    ensures { result ≡ blank_cell }
{
    Cell {
        row: 0,
        column: 0,
        idx: 0,
        value: DataValue::Bit(0),
    }
}

impl From<u8> for Logical {
    ghost from_gives = { λ byte l. l ≡ logical byte };

    #[tactic(auto, unfolding(crate::specs::Item::logical))]
    fn from(byte: u8) -> Self {
        match byte {
            b'T' => Logical::Yes,
            b'F' => Logical::No,
            0 => Logical::Unset,
            _ => Logical::Odd(byte),
        }
    }
}

// The same, under the name that callers have it by.
pub fn read_logical(byte: u8) -> Logical
    ensures { result ≡ logical byte }
{
    Logical::from(byte)
}

// The item at a place, as its bytes say it. All types take theirs of one read of eight bytes, which leaves the
// function small enough to be compiled into the loop of a row read. With a read for each type the row read takes up
// to 26 % more instructions; with that and `#[inline(always)]` the cell read up to 6 %.
fn raw_item(area: &[u8], at: u64, ty: VariableArrayTy) -> DataValue
    ensures { result ≡ raw_item ty area.now at }
{
    let eight = words::eight_at(area, at, 0);
    let four = (eight >> 32) as u32;
    let two = (eight >> 48) as u16;
    let byte = (eight >> 56) as u8;
    match ty {
        // In one expression it costs the row read up to 8 % more instructions.
        VariableArrayTy::L => {
            let value = Logical::from(byte);
            DataValue::Logical(value)
        }
        VariableArrayTy::X => DataValue::Bit(byte),
        VariableArrayTy::B => DataValue::UnsignedByte(byte),
        VariableArrayTy::I => DataValue::Short(two.cast_signed()),
        VariableArrayTy::J => DataValue::Integer(four.cast_signed()),
        VariableArrayTy::K => DataValue::Long(eight.cast_signed()),
        VariableArrayTy::A => DataValue::Character(byte),
        VariableArrayTy::E => DataValue::Float {
            value: num::f32_from_bits_with_nan(four),
            bits: four,
        },
        VariableArrayTy::D => DataValue::Double {
            value: num::f64_from_bits_with_nan(eight),
            bits: eight,
        },
        VariableArrayTy::C => {
            let imag_bits = (eight & 0xffff_ffff) as u32;
            DataValue::ComplexFloat {
                real: num::f32_from_bits_with_nan(four),
                real_bits: four,
                imag: num::f32_from_bits_with_nan(imag_bits),
                imag_bits,
            }
        }
        VariableArrayTy::M => {
            let imag_bits = words::u64_at(area, at, 8);
            DataValue::ComplexDouble {
                real: num::f64_from_bits_with_nan(eight),
                real_bits: eight,
                imag: num::f64_from_bits_with_nan(imag_bits),
                imag_bits,
            }
        }
    }
}

// A value with this stored number: unset where that is the null of its column.
fn unless_null(null: Null, number: i64, raw: DataValue) -> DataValue
    ensures { result ≡ cond (is_null null (Some number)) Unset raw }
{
    match null {
        Null::Number(null) if null == number => DataValue::Unset,
        _ => raw,
    }
}

// What a column makes of a raw value. Each type looks at the null by itself, so that the loop of the scaled row read
// goes by the type once: with one test for all it takes up to 30 % more instructions.
fn value_in(column: Column, raw: DataValue) -> DataValue
    ensures { result ≡ value_in column raw }
{
    match raw {
        DataValue::UnsignedByte(n) => unless_null(column.null, n as i64, raw),
        DataValue::Short(n) => unless_null(column.null, n as i64, raw),
        DataValue::Integer(n) => unless_null(column.null, n as i64, raw),
        DataValue::Long(n) => unless_null(column.null, n, raw),
        _ => raw,
    }
}

// The value of the item at a place. A byte past the area counts as 0.
#[tactic(auto, unfolding(crate::specs::Item::item))]
pub fn read_item(area: &[u8], at: u64, ty: VariableArrayTy, column: Column) -> DataValue
    ensures { result ≡ item column ty area.now at }
{
    let raw = raw_item(area, at, ty);
    value_in(column, raw)
}

// No item: what an array of count 0 gives, and a field of P or Q with count 0.
fn no_items(ty: VariableArrayTy) -> Field
    ensures { result ≡ no_items ty }
{
    Field::Items { ty, at: 0, n: 0 }
}

// Where an array of n items begins that ends inside the heap.
#[tactic(auto, using(crate::proofs::Widths::width_pos, crate::proofs::Arrays::too_many, crate::proofs::Arrays::enough))]
fn place_in_heap(heap: &Heap, ty: VariableArrayTy, n: u64, offset_byte: u64) -> Option<u64>
    ensures { SomeIff result (heap.now.start + offset_byte + n * width ty ≤ heap.now.end)
        (heap.now.start + offset_byte) }
{
    let room = heap.end.checked_sub(heap.start)?.checked_sub(offset_byte)?;
    // No product, which could wrap.
    (n <= room / tform::width(ty)).then_some(heap.start + offset_byte)
}

// The array that a descriptor names, whether the heap is followed or not.
#[tactic(auto, unfolding(crate::specs::Field::array))]
pub fn array(heap: &Heap, ty: VariableArrayTy, num_elems: u64, offset_byte: u64) -> Field
    ensures { result ≡ array heap.now.start heap.now.end ty num_elems offset_byte }
{
    if num_elems == 0 {
        return no_items(ty);
    }
    let n = tform::item_count(ty, num_elems);
    let Some(at) = place_in_heap(heap, ty, n, offset_byte) else {
        return Field::OutsideHeap;
    };
    Field::Items { ty, at, n }
}

// What the field of a column at a place stands for. P and Q of count 0 have no descriptor. The heap is borrowed: by
// value cell reads of four columns `PJ` take 3.7 % more instructions.
#[tactic(auto, unfolding(crate::specs::Field::field, crate::specs::Field::field32, crate::specs::Field::field64))]
pub fn read_field(area: &[u8], at: u64, column: Column, heap: &Heap) -> Field
    ensures { result ≡ field area.now at column heap.now.followed heap.now.start heap.now.end }
{
    // The array that a descriptor names, or the descriptor.
    let described = |ty, num_elems, offset_byte, descriptor| {
        if heap.followed {
            array(heap, ty, num_elems, offset_byte)
        } else {
            Field::Descriptor(descriptor)
        }
    };
    match column.form {
        TFormType::Items(ty) => Field::Items {
            ty,
            at,
            n: tform::item_count(ty, column.count as u64),
        },
        TFormType::P(ty) if 0 < column.count => {
            let num_elems = words::u32_at(area, at, 0);
            let offset_byte = words::u32_at(area, at, 4);
            let descriptor = DataValue::VariableLengthArray32 {
                num_elems,
                offset_byte,
            };
            described(ty, num_elems as u64, offset_byte as u64, descriptor)
        }
        TFormType::Q(ty) if 0 < column.count => {
            let num_elems = words::u64_at(area, at, 0);
            let offset_byte = words::u64_at(area, at, 8);
            let descriptor = DataValue::VariableLengthArray64 {
                num_elems,
                offset_byte,
            };
            described(ty, num_elems, offset_byte, descriptor)
        }
        TFormType::P(ty) | TFormType::Q(ty) => no_items(ty),
    }
}

// How many entries a field has in the row's plain list.
pub fn field_size(field: Field) -> u64
    ensures { result ≡ size_of field }
{
    match field {
        Field::Items { n, .. } => n,
        Field::Descriptor(_) | Field::OutsideHeap => 1,
    }
}
