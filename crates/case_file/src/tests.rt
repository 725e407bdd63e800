// The calls that give an error: `print_check` that of a write, `print_cases` that of the first case that gives one.
use super::*;
use std::fmt::{Display, Write};
use std::io::ErrorKind;
use std::test::Fail;

// What is still to be written of a text. A piece that is not at its front is an error.
#[derive(Drop)]
struct Left<'a>(&'a str);

impl fmt::Write for Left<'_> {
    fn write_str(&mut self, text: &str) -> fmt::Result {
        self.0 = self.0.strip_prefix(text).ok_or(fmt::Error)?;
        Ok(())
    }
}

// What prints one text: another gives an error.
#[derive(Drop)]
struct Line<'a>(&'a str);

impl Print for Line<'_> {
    fn print<D: Display + Drop>(&self, value: D) -> io::Result<()> {
        let mut left = Left(self.0);
        let written = write!(left, "{value}");
        if written.is_ok() && left.0.is_empty() {
            return Ok(());
        }
        Err(io::Error::from(ErrorKind::BrokenPipe))
    }

    fn println<D: Display + Drop>(&self, value: D) -> io::Result<()> {
        self.print(format_args!("{value}\n"))
    }

    fn write_all(&self, _bytes: &[u8]) -> io::Result<()> {
        Err(io::Error::from(ErrorKind::BrokenPipe))
    }
}

#[test]
fn checks(rt: HostRuntime) -> Result<(), Fail> {
    print_check(&Line("passed\n"), None, "passed")?;
    print_check(&Line("refused 10 0\n"), Some(Refusal::Mismatch), "passed")?;
    for line in ["", "passed", "refused 10 0"] {
        assert!(rt;
            print_check(&Line(line), None, "passed").is_err(),
            "passed as {line}"
        );
        let refused = print_check(&Line(line), Some(Refusal::Mismatch), "passed");
        assert!(rt; refused.is_err(), "refused as {line}");
    }
    print_check(&rt, None, "passed")?;
    Ok(())
}

// A case of two bytes. The first says what its printing gives, and the second how many cases come before it; where that
// is wrong, the printing fails too.
#[derive(Clone, Copy)]
struct Numbered {
    gives: u8,
    before: u8,
}

impl<'a> Case<'a> for Numbered {
    fn split(bytes: &'a [u8]) -> Option<(Self, &'a [u8])> {
        let (pair, rest) = bytes.split_first_chunk::<2>()?;
        let case = Numbered {
            gives: pair[0],
            before: pair[1],
        };
        Some((case, rest))
    }

    fn print(self, rt: &HostRuntime, number: usize) -> io::Result<()> {
        if number != self.before as usize {
            return Err(io::Error::from(ErrorKind::InvalidInput));
        }
        match self.gives {
            0 => println!(rt; "case {number}"),
            1 => Err(io::Error::from(ErrorKind::InvalidData)),
            _ => Err(io::Error::from(ErrorKind::BrokenPipe)),
        }
    }
}

// Files whose cases can be printed, two of them cut short.
const PRINTED: [&[u8]; 4] = [&[], &[0], &[0, 0], &[0, 0, 0, 1, 0]];

// Files of which a case cannot, and the first error.
const FAILED: [(&[u8], ErrorKind); 4] = [
    (&[0, 1], ErrorKind::InvalidInput),
    (&[1, 0], ErrorKind::InvalidData),
    (&[0, 0, 1, 1, 2, 2, 0, 3], ErrorKind::InvalidData),
    (&[0, 0, 2, 1, 1, 2, 0], ErrorKind::BrokenPipe),
];

#[test]
fn cases(rt: HostRuntime) -> Result<(), Fail> {
    for file in PRINTED {
        print_cases::<Numbered>(&rt, file)?;
    }
    for (file, kind) in FAILED {
        let error = print_cases::<Numbered>(&rt, file).err().ok_or("no error")?;
        assert_eq!(rt; error.kind(), kind);
    }
    Ok(())
}
