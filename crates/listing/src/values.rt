// The value of a cell as text.
ghost use Rattle.std.specs.Prelude.{◌≡◌, ◌+◌, ◌≤◌, ◌++◌, length};
ghost use Rattle.ascii.specs.Number.{decimal_text};
ghost use Rattle.listing.specs.Text.{hex_text, two_texts, logical_text, value_text};
ghost use Rattle.listing.specs.Writer.{room};

use crate::writer::Writer;
use cell::{DataValue, Logical};

impl Writer {
    #[tactic(auto, using(crate::proofs::Written::pieces), unfolding(ascii::specs::Text::bytes))]
    fn put_logical(&mut self, logical: Logical)
        requires { length self.old + 21 ≤ room }
        ensures { self.new ≡ self.old ++ logical_text logical }
    {
        match logical {
            Logical::Yes => self.put(b"T"),
            Logical::No => self.put(b"F"),
            Logical::Unset => self.put(b"U"),
            Logical::Odd(byte) => {
                self.put(b"?");
                self.put_number(byte as u64);
            }
        }
    }

    // Two numbers with a space between. This and the next are no plainer as one with a closure: its clauses would have
    // to say what the closure puts for a number, and what room it needs.
    fn put_two_decimals(&mut self, one: u64, two: u64)
        requires { length self.old + 41 ≤ room }
        ensures { self.new ≡ self.old ++ two_texts (decimal_text one) (decimal_text two) }
    {
        self.put_number(one);
        self.put(b" ");
        self.put_number(two);
    }

    fn put_two_hex(&mut self, one: u64, two: u64, width: u8)
        requires { (width ≤ 16) × (length self.old + 33 ≤ room) }
        ensures { self.new ≡ self.old ++ two_texts (hex_text width one) (hex_text width two) }
    {
        self.put_hex(one, width);
        self.put(b" ");
        self.put_hex(two, width);
    }

    #[tactic(auto, unfolding(ascii::specs::Text::bytes))]
    pub(crate) fn put_value(&mut self, value: DataValue)
        requires { length self.old + 41 ≤ room }
        ensures { self.new ≡ self.old ++ value_text value }
    {
        match value {
            DataValue::Unset => self.put(b"U"),
            DataValue::Logical(logical) => self.put_logical(logical),
            DataValue::Bit(byte) | DataValue::UnsignedByte(byte) | DataValue::Character(byte) => {
                self.put_number(byte as u64)
            }
            DataValue::Short(number) => self.put_signed(number as i64),
            DataValue::Integer(number) => self.put_signed(number as i64),
            DataValue::Long(number) => self.put_signed(number),
            DataValue::UnsignedLong(number) => self.put_number(number),
            DataValue::Float { bits, .. } => self.put_hex(bits as u64, 8),
            DataValue::Double { bits, .. } => self.put_hex(bits, 16),
            DataValue::ComplexFloat {
                real_bits,
                imag_bits,
                ..
            } => self.put_two_hex(real_bits as u64, imag_bits as u64, 8),
            DataValue::ComplexDouble {
                real_bits,
                imag_bits,
                ..
            } => self.put_two_hex(real_bits, imag_bits, 16),
            DataValue::VariableLengthArray32 {
                num_elems,
                offset_byte,
            } => self.put_two_decimals(num_elems as u64, offset_byte as u64),
            DataValue::VariableLengthArray64 {
                num_elems,
                offset_byte,
            } => self.put_two_decimals(num_elems, offset_byte),
        }
    }
}
