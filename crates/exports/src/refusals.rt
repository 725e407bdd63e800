// The number of a refusal, alone or above a sum or a length.
ghost use Rattle.std.specs.Prelude.{◌≡◌};
ghost use Rattle.refusal.specs.Refusal.{number_of, outcome_of};
ghost use Rattle.exports.specs.Checksum.{with_number};
ghost use Rattle.exports.specs.Loops.{number_in};
ghost use Rattle.exports.specs.Turning.{outcome_number};
ghost use Rattle.exports.specs.Page.{reply_number};
ghost use Rattle.profile.specs.Page.{reply_of};

use super::checksum::WORD_LIMIT;
use refusal::Refusal;

pub fn refused(sum: u32, refusal: Refusal) -> u64
    ensures { result ≡ with_number (number_of refusal) sum }
{
    refusal::number(refusal) * WORD_LIMIT + sum as u64
}

// With the answer that ends the reads: an item, or none, has no number.
pub fn ended<T: Copy>(sum: u32, answer: Result<T, Refusal>) -> u64
    ensures { result ≡ with_number (number_in answer) sum }
{
    match answer {
        Ok(_) => sum as u64,
        Err(refusal) => refused(sum, refusal),
    }
}

// Alone, and 0 where nothing is refused.
pub fn number(answer: Result<(), Refusal>) -> u64
    ensures { result ≡ outcome_number (outcome_of answer) }
{
    match answer {
        Ok(()) => 0,
        Err(refusal) => refusal::number(refusal),
    }
}

// The bytes of a page, or the number above 32 bits of 0.
pub fn page_number(answer: Result<usize, Refusal>) -> u64
    ensures { result ≡ reply_number (reply_of answer) }
{
    match answer {
        Ok(bytes) => bytes as u64,
        Err(refusal) => refused(0, refusal),
    }
}
