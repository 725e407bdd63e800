// The cases of a file, one after another: three lengths of four bytes, high byte first, and then so many bytes of a
// table, of steps and of the text that is expected.
ghost use Rattle.std.specs.Prelude.{◌≡◌, ◌+◌, ◌*◌, ◌≤◌, ◌<◌, ◌^◌, length, MatchOption};
ghost use Rattle.cell.specs.Item.{word};
ghost use Rattle.cases.specs.Cases.{case_end, IsCase, counted, ended, tally_of};
ghost use Rattle.cases.specs.declared.count.Case.{Case};

use super::compare;

// How many cases there are, how many of them differ, the number of the first that does, from 1, and whether the file
// ends within a case. No Result: a file that is cut has a tally too.
#[derive(Clone, Copy)]
pub struct Tally {
    pub cases: u64,
    pub differ: u64,
    pub first: Option<u64>,
    pub cut: bool,
}

// A case, and what stands after it.
#[derive(Clone, Copy)]
struct Case<'a> {
    table: &'a [u8],
    steps: &'a [u8],
    text: &'a [u8],
    rest: &'a [u8],
}

// The number that the four bytes from a place on say.
fn length_at(bytes: &[u8], at: u8) -> usize
    ensures { result ≡ word bytes.now at 4 }
{
    cell::words::u32_at(bytes, 0, at) as usize
}

// The case at the front of some bytes; none where they end within it.
fn first_case(bytes: &[u8]) -> Option<Case>
    ensures { MatchOption result (length bytes.now < case_end bytes.now) (λ (k : Case). IsCase bytes.now k) }
{
    let (_, rest) = bytes.split_at_checked(12)?;
    let (table, rest) = rest.split_at_checked(length_at(bytes, 0))?;
    let (steps, rest) = rest.split_at_checked(length_at(bytes, 4))?;
    let (text, rest) = rest.split_at_checked(length_at(bytes, 8))?;
    Some(Case {
        table,
        steps,
        text,
        rest,
    })
}

// One case more. That there are fewer than 2^64 comes from the length of the file, which a tally does not know.
fn count_case(tally: Tally, same: bool) -> Tally
    requires { (tally.cases + 1 < 2 ^ 64) × (tally.differ + 1 < 2 ^ 64) }
    ensures { result ≡ counted tally same }
{
    let cases = tally.cases + 1;
    if same {
        return Tally { cases, ..tally };
    }
    Tally {
        cases,
        differ: tally.differ + 1,
        first: Some(tally.first.unwrap_or(cases)),
        ..tally
    }
}

// The end of the list: bytes that are left are a case that is cut.
fn end_cases(tally: Tally, left: usize) -> Tally
    ensures { result ≡ ended tally left }
{
    Tally {
        cut: 0 < left,
        ..tally
    }
}

// Runs every case.
pub fn run_cases(file: &[u8]) -> Tally
    ensures value { result ≡ tally_of file.now }
    ensures few { 12 * result.cases ≤ length file.now }
{
    let mut tally = Tally {
        cases: 0,
        differ: 0,
        first: None,
        cut: false,
    };
    let mut rest = file;
    loop {
        let Some(case) = first_case(rest) else {
            return end_cases(tally, rest.len());
        };
        tally = count_case(tally, compare::same_text(case.table, case.steps, case.text));
        rest = case.rest;
    }
}
