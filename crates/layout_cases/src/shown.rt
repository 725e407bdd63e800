// What is printed of a form, a name, a scaling, a null, a column that was found, and a stretch of bytes. All but a
// form begin with a space, so that it is of one piece with a word after it.
use case_file::Signed;
use layout::{Name, Null, Scaling};
use std::{fmt, num};
use tform::TFormType;

// The form's letter, after that of its descriptor.
#[derive(Clone, Copy)]
pub struct Form(pub TFormType);

impl fmt::Display for Form {
    fn fmt<W: fmt::Write>(&self, f: &mut fmt::Formatter<W>) -> fmt::Result {
        match self.0 {
            TFormType::Items(ty) => write!(f, "{}", char::from(tform::letter(ty))),
            TFormType::P(ty) => write!(f, "P{}", char::from(tform::letter(ty))),
            TFormType::Q(ty) => write!(f, "Q{}", char::from(tform::letter(ty))),
        }
    }
}

// Where a column's name stands in the header.
#[derive(Clone, Copy)]
pub struct Stretch(pub Option<Name>);

impl fmt::Display for Stretch {
    fn fmt<W: fmt::Write>(&self, f: &mut fmt::Formatter<W>) -> fmt::Result {
        match self.0 {
            None => write!(f, " missing"),
            Some(Name { start, len }) => write!(f, " stretch {start} {len}"),
        }
    }
}

// The factor and the zero, as the bits of the doubles.
#[derive(Clone, Copy)]
pub struct Factors(pub Scaling);

impl fmt::Display for Factors {
    fn fmt<W: fmt::Write>(&self, f: &mut fmt::Formatter<W>) -> fmt::Result {
        let Factors(Scaling { factor, zero }) = *self;
        let factor = num::f64_to_bits_with_nan(factor);
        let zero = num::f64_to_bits_with_nan(zero);
        write!(f, " factor {factor} zero {zero}")
    }
}

// The stored number that stands for a missing value, if there is one.
#[derive(Clone, Copy)]
pub struct Missing(pub Null);

impl fmt::Display for Missing {
    fn fmt<W: fmt::Write>(&self, f: &mut fmt::Formatter<W>) -> fmt::Result {
        match self.0 {
            Null::NotGiven => Ok(()),
            Null::Number(number) => write!(f, " null {}", Signed(number)),
            Null::OutOfRange => write!(f, " null out of range"),
        }
    }
}

// The column that has a name.
#[derive(Clone, Copy)]
pub struct Place(pub Option<usize>);

impl fmt::Display for Place {
    fn fmt<W: fmt::Write>(&self, f: &mut fmt::Formatter<W>) -> fmt::Result {
        match self.0 {
            Some(column) => write!(f, " {column}"),
            None => write!(f, " none"),
        }
    }
}

// Each byte as a number, after a space.
#[derive(Clone, Copy)]
pub struct Bytes<'a>(pub &'a [u8]);

impl fmt::Display for Bytes<'_> {
    fn fmt<W: fmt::Write>(&self, f: &mut fmt::Formatter<W>) -> fmt::Result {
        for byte in self.0 {
            write!(f, " {byte}")?;
        }
        Ok(())
    }
}
