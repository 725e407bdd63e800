// The record of a used name with its value, and the checks of both, each by its number in docs/FORMAT.md, section 10.
ghost use Rattle.std.specs.Prelude.{◌≡◌, take, drop};
ghost use Rattle.refusal.specs.Refusal.{outcome_of};
ghost use Rattle.bintable.specs.Checks.{is_integer, is_string, not_negative, size_in, within, text_in, value_at, real_or, wide_at};
ghost use Rattle.bintable.specs.Checks.{check4, check5, check6, check7};

use card::Value;
use refusal::Refusal;

// The record that a header has for a used name, by its number, and the record's value.
#[derive(Clone, Copy)]
pub struct KeywordRecord<'a> {
    header: &'a [u8],
    number: Option<usize>,
    value: Option<Value>,
    ghost read: { value ≡ value_at header.now number },
}

// The value of a record, none where there is no record.
fn value_of(header: &[u8], number: Option<usize>) -> Option<Value>
    ensures { result ≡ value_at header.now number }
{
    card::parse_value(header, number?)
}

// `len` bytes from `start`, or as many of them as the header has.
fn stretch(header: &[u8], start: usize, len: usize) -> &[u8]
    ensures { result.now ≡ take len (drop start header.now) }
{
    let rest = header.get(start..).unwrap_or(&[]);
    rest.get(..len).unwrap_or(rest)
}

impl<'a> KeywordRecord<'a> {
    pub fn new(header: &'a [u8], number: Option<usize>) -> KeywordRecord<'a>
        ensures header { result.header.now ≡ header.now }
        ensures number { result.number ≡ number }
    {
        let value = value_of(header, number);
        KeywordRecord {
            header,
            number,
            value,
        }
    }

    pub fn number(&self) -> Option<usize>
        ensures { result ≡ self.now.number }
    {
        self.number
    }

    pub fn value(&self) -> Option<Value>
        ensures { result ≡ self.now.value }
    {
        self.value
    }

    pub fn is_integer(&self) -> bool
        ensures { result ≡ is_integer self.now.value }
    {
        matches!(self.value, Some(Value::Integer(_)))
    }

    pub fn is_string(&self) -> bool
        ensures { result ≡ is_string self.now.value }
    {
        matches!(self.value, Some(Value::String { .. }))
    }

    pub fn not_negative(&self) -> bool
        ensures { result ≡ not_negative self.now.value }
    {
        matches!(self.value, Some(Value::Integer(0..)))
    }

    // The number of the value, 0 where it is none or negative, as the definition has it: the sizes are read where their
    // checks have passed.
    pub fn size(&self) -> u64
        ensures { result ≡ size_in self.now.value }
    {
        match self.value {
            Some(Value::Integer(n)) if 0 <= n => n as u64,
            _ => 0,
        }
    }

    // Whether the value is a number from `low` to `high`.
    pub fn is_within(&self, low: u64, high: u64) -> bool
        ensures { result ≡ within low high self.now.value }
    {
        self.not_negative() && (low..=high).contains(&self.size())
    }

    // The bytes of the value where it is a string, else no bytes, as the definition has it.
    pub fn text(&self) -> &'a [u8]
        ensures { result.now ≡ text_in self.now.header.now self.now.value }
    {
        let Some(Value::String { start, len }) = self.value else {
            return &[];
        };
        stretch(self.header, start, len)
    }

    // The real number of the record, if its value is one; that of a missing record is given.
    pub fn real_or(&self, missing: f64) -> Option<f64>
        ensures { result ≡ real_or missing self.now.header.now self.now.number }
    {
        match self.number {
            Some(record) => real::parse(self.header, record),
            None => Some(missing),
        }
    }

    // The integer of the record, of 19 digits at most.
    pub fn wide(&self) -> Option<i128>
        ensures { result ≡ wide_at self.now.header.now self.now.number }
    {
        card::parse_wide(self.header, self.number?)
    }

    pub fn check4(&self, n: usize) -> Result<(), Refusal>
        ensures { outcome_of result ≡ check4 n self.now.number }
    {
        match self.number {
            Some(_) => Ok(()),
            None => Err(Refusal::MissingName { n }),
        }
    }

    // Checks 5, 6 and 7 are one match each: one function that is told the cause by a closure is no shorter.
    pub fn check5(&self, kind: bool) -> Result<(), Refusal>
        ensures { outcome_of result ≡ check5 kind self.now.number }
    {
        match self.number {
            Some(record) if !kind => Err(Refusal::UnreadableValue { record }),
            _ => Ok(()),
        }
    }

    pub fn check6(&self, right: bool) -> Result<(), Refusal>
        ensures { outcome_of result ≡ check6 right self.now.number }
    {
        match self.number {
            Some(record) if !right => Err(Refusal::InvalidValue { record }),
            _ => Ok(()),
        }
    }

    pub fn check7(&self, limit: u64) -> Result<(), Refusal>
        ensures { outcome_of result ≡ check7 limit self.now.value self.now.number }
    {
        match self.number {
            Some(record) if limit < self.size() => Err(Refusal::AboveLimit { record }),
            _ => Ok(()),
        }
    }
}
