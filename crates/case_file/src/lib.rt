// What the programs that read a file of cases share: the numbers and blocks of such a file, the loop over its cases,
// and what they print by.
#![tactic(auto)]

ghost use Rattle.std.specs.Prelude.{◌≡◌, ◌+◌, ◌<◌, length, drop, IfSome, IsOk, MatchOption};
ghost use Rattle.std.specs.Iterator.{at_most};
ghost use Rattle.std.specs.declared.option.Option.TheVariants.{Some};
ghost use Rattle.std.specs.List.{IsSplitAt};
ghost use Rattle.std.specs.Fmt.{signed_decimal};
ghost use Rattle.case_file.specs.Number.{front_number};

use refusal::Refusal;
use std::fmt::Write;
use std::marker::PhantomData;
use std::{fmt, io};

// The number that the first four bytes say, high byte first, and what stands after it; none where there are fewer.
pub fn split_number(bytes: &[u8]) -> Option<(u32, &[u8])>
    ensures cases { MatchOption result (length bytes.now < 4)
        (λ p. (p.0 ≡ front_number bytes.now) × (p.1.now ≡ drop 4 bytes.now)) }
    ensures len { IfSome result (λ p. length p.1.now + 4 ≡ length bytes.now) }
{
    let (number, rest) = bytes.split_first_chunk::<4>()?;
    Some((u32::from_be_bytes(*number), rest))
}

// The block at the front, which has its length before it, and what stands after it; none where it is cut short.
pub fn split_block(bytes: &[u8]) -> Option<(&[u8], &[u8])>
    ensures cases { MatchOption result (length bytes.now < front_number bytes.now + 4)
        (λ p. IsSplitAt (drop 4 bytes.now) (front_number bytes.now) p.0.now p.1.now) }
    ensures len { IfSome result (λ p. length p.0.now + length p.1.now + 4 ≡ length bytes.now) }
{
    let (len, rest) = split_number(bytes)?;
    rest.split_at_checked(len as usize)
}

// What prints, as a writer in pieces: each text that it is given is a write of its own, so of a format each stretch of
// fixed text and each value. A write that fails is passed over, and the next one is tried all the same.
#[derive(Drop)]
pub struct Output<'a, P>(pub &'a P);

impl<P: Print> fmt::Write for Output<'_, P> {
    fn write_str(&mut self, text: &str) -> fmt::Result
        ensures { IsOk result }
    {
        let _ = self.0.write_all(text.as_bytes());
        Ok(())
    }
}

// A number whose sign, if it is negative, is a piece of its own.
#[derive(Clone, Copy)]
pub struct Signed(pub i64);

impl fmt::Display for Signed {
    ghost output = { λ s. Some (signed_decimal s.0) };

    fn fmt<W: fmt::Write>(&self, f: &mut fmt::Formatter<W>) -> fmt::Result {
        let magnitude = self.0.unsigned_abs();
        if self.0 < 0 {
            write!(f, "-{magnitude}")
        } else {
            write!(f, "{magnitude}")
        }
    }
}

// Prints what the checks come to: the refusal, or the word where there is none. The answer is the error, where a write
// fails.
pub fn print_check(rt: &impl Print, refusal: Option<Refusal>, passed: &str) -> io::Result<()> {
    match refusal {
        None => println!(rt; "{passed}"),
        Some(refusal) => println!(rt; "{refusal}"),
    }
}

// The same in pieces: a write that fails is passed over. `passed` is printed as it is, with the line feed that it ends
// in, so that both are one piece.
pub fn print_check_in_pieces(rt: &impl Print, refusal: Option<Refusal>, passed: &str) {
    let _ = match refusal {
        None => write!(Output(rt), "{passed}"),
        Some(refusal) => writeln!(Output(rt), "{refusal}"),
    };
}

// A case of a file.
pub trait Case<'a>: Sized {
    // The case at the front of the bytes and what stands after it; none where it is cut short.
    fn split(bytes: &'a [u8]) -> Option<(Self, &'a [u8])>
        ensures shorter { IfSome result (λ p. length p.1.now < length bytes.now) };

    // Prints it under its number. An error ends the run over the cases.
    fn print(self, rt: &HostRuntime, number: usize) -> io::Result<()>;
}

// A case of a file that is printed in pieces.
pub trait CaseInPieces<'a>: Sized {
    // The case at the front of the bytes and what stands after it; none where it is cut short.
    fn split(bytes: &'a [u8]) -> Option<(Self, &'a [u8])>
        ensures shorter { IfSome result (λ p. length p.1.now < length bytes.now) };

    // Prints it under its number.
    fn print(self, rt: &HostRuntime, number: usize);
}

// A case of `Case` as the loop over the bytes takes it. `print_cases` takes it out and prints it, so its own `print` is
// called by nothing.
struct InLoop<C>(C);

impl<'a, C: Case<'a>> CaseInPieces<'a> for InLoop<C> {
    fn split(bytes: &'a [u8]) -> Option<(Self, &'a [u8])> {
        let (case, rest) = C::split(bytes)?;
        Some((InLoop(case), rest))
    }

    fn print(self, rt: &HostRuntime, number: usize) {
        let InLoop(case) = self;
        let _ = case.print(rt, number);
    }
}

// The cases of a file, one after the other. A last one that is cut short comes as `None`, and nothing after it.
#[derive(Drop)]
struct Cases<'a, C> {
    rest: &'a [u8],
    kind: PhantomData<C>,
}

impl<'a, C: CaseInPieces<'a>> Cases<'a, C> {
    fn new(file: &'a [u8]) -> Self {
        Cases {
            rest: file,
            kind: PhantomData,
        }
    }
}

impl<'a, C: CaseInPieces<'a>> Iterator for Cases<'a, C> {
    type Item = Option<C>;

    ghost remaining = { λ s. at_most (length s.rest.now) };

    fn next(&mut self) -> Option<Option<C>> {
        if self.rest.is_empty() {
            return None;
        }
        match C::split(self.rest) {
            Some((case, after)) => {
                self.rest = after;
                Some(Some(case))
            }
            None => {
                self.rest = &[];
                Some(None)
            }
        }
    }
}

// Prints each case of a file, by its number from 0, and `cut` after them where the last one is cut short. The first
// error ends it and is the answer. The file's bytes outlive its cases, so they are the caller's.
pub fn print_cases<'a, C: Case<'a>>(rt: &HostRuntime, file: &'a [u8]) -> io::Result<()> {
    for (number, case) in Cases::<InLoop<C>>::new(file).enumerate() {
        match case {
            Some(InLoop(case)) => case.print(rt, number)?,
            None => println!(rt; "cut")?,
        }
    }
    Ok(())
}

// The same of cases that are printed in pieces: a write that fails is passed over.
pub fn print_cases_in_pieces<'a, C: CaseInPieces<'a>>(rt: &HostRuntime, file: &'a [u8]) {
    for (number, case) in Cases::<C>::new(file).enumerate() {
        match case {
            Some(case) => case.print(rt, number),
            None => {
                let _ = writeln!(Output(rt), "cut");
            }
        }
    }
}

#[cfg(test)]
mod tests;
