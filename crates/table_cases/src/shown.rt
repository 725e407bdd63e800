// What is printed of an answer and of a cursor.
use case_file::Signed;
use cell::{Cell, DataValue, Logical};
use refusal::Refusal;
use std::fmt;
use walk::TableData;

// A value as it is printed.
#[derive(Clone, Copy)]
pub struct Shown<T>(pub T);

impl fmt::Display for Shown<Logical> {
    fn fmt<W: fmt::Write>(&self, f: &mut fmt::Formatter<W>) -> fmt::Result {
        match self.0 {
            Logical::Yes => write!(f, "1"),
            Logical::No => write!(f, "0"),
            Logical::Unset => write!(f, "2"),
            // The 3 goes in as a value, so that the space after it is a piece of its own.
            Logical::Odd(byte) => write!(f, "{} {byte}", 3u8),
        }
    }
}

// The letter of the items that have such a value, or of the descriptor, and its numbers. Those of a float are its
// bits. An unset one has no number, and a U that stands alone. A letter goes in as a value, so that the space after it
// is a piece of its own.
impl fmt::Display for Shown<DataValue> {
    fn fmt<W: fmt::Write>(&self, f: &mut fmt::Formatter<W>) -> fmt::Result {
        match self.0 {
            DataValue::Unset => write!(f, "U"),
            DataValue::Logical(logical) => write!(f, "{} {}", 'L', Shown(logical)),
            DataValue::Bit(byte) => write!(f, "{} {byte}", 'X'),
            DataValue::UnsignedByte(byte) => write!(f, "{} {byte}", 'B'),
            DataValue::Short(number) => write!(f, "{} {}", 'I', Signed(number.into())),
            DataValue::Integer(number) => write!(f, "{} {}", 'J', Signed(number.into())),
            DataValue::Long(number) => write!(f, "{} {}", 'K', Signed(number)),
            DataValue::UnsignedLong(number) => write!(f, "{} {number}", 'U'),
            DataValue::Character(byte) => write!(f, "{} {byte}", 'A'),
            DataValue::Float { bits, .. } => write!(f, "{} {bits}", 'E'),
            DataValue::Double { bits, .. } => write!(f, "{} {bits}", 'D'),
            DataValue::ComplexFloat {
                real_bits,
                imag_bits,
                ..
            } => write!(f, "{} {real_bits} {imag_bits}", 'C'),
            DataValue::ComplexDouble {
                real_bits,
                imag_bits,
                ..
            } => write!(f, "{} {real_bits} {imag_bits}", 'M'),
            DataValue::VariableLengthArray32 {
                num_elems,
                offset_byte,
            } => write!(f, "{} {num_elems} {offset_byte}", 'P'),
            DataValue::VariableLengthArray64 {
                num_elems,
                offset_byte,
            } => write!(f, "{} {num_elems} {offset_byte}", 'Q'),
        }
    }
}

// A line, with the line feed at its end, so that it is of one piece with a word before it.
#[derive(Clone, Copy)]
pub struct Line<T>(pub T);

// What a step answers: a cell, the count of a row read, or that a row was sought; the end; or a refusal.
impl fmt::Display for Line<Cell> {
    fn fmt<W: fmt::Write>(&self, f: &mut fmt::Formatter<W>) -> fmt::Result {
        let cell = self.0;
        writeln!(
            f,
            "cell {} {} {} {}",
            cell.row,
            cell.column,
            cell.idx,
            Shown(cell.value)
        )
    }
}

impl fmt::Display for Line<u64> {
    fn fmt<W: fmt::Write>(&self, f: &mut fmt::Formatter<W>) -> fmt::Result {
        writeln!(f, "row {}", self.0)
    }
}

impl fmt::Display for Line<()> {
    fn fmt<W: fmt::Write>(&self, f: &mut fmt::Formatter<W>) -> fmt::Result {
        writeln!(f, "sought")
    }
}

impl<T: Copy> fmt::Display for Line<Option<T>>
where
    Line<T>: fmt::Display,
{
    fn fmt<W: fmt::Write>(&self, f: &mut fmt::Formatter<W>) -> fmt::Result {
        match self.0 {
            Some(value) => write!(f, "{}", Line(value)),
            None => writeln!(f, "end"),
        }
    }
}

impl<T: Copy> fmt::Display for Line<Result<T, Refusal>>
where
    Line<T>: fmt::Display,
{
    fn fmt<W: fmt::Write>(&self, f: &mut fmt::Formatter<W>) -> fmt::Result {
        match self.0 {
            Ok(value) => write!(f, "{}", Line(value)),
            Err(refusal) => writeln!(f, "{refusal}"),
        }
    }
}

// A cursor's place and count.
impl fmt::Display for Line<TableData> {
    fn fmt<W: fmt::Write>(&self, f: &mut fmt::Formatter<W>) -> fmt::Result {
        let cursor = self.0;
        writeln!(f, "at {} {} {}", cursor.row, cursor.passed, cursor.count)
    }
}
