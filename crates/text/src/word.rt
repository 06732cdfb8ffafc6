// A text as a signed 64-bit word.
ghost use Rattle.std.specs.Prelude.{◌≡◌, true, ◌<◌, ◌≤◌};
ghost use Rattle.text.specs.Numerals.{are_digits, numeral};
ghost use Rattle.text.specs.Readings.{reading};
ghost use Rattle.text.specs.Inner.{as_word};

use super::ReadError;
use super::digit::digit;
use super::form::read_numeral;
use words::sign::{absolute_fits, from_absolute};

// The number that digits are, where a word holds it.
#[tactic(auto, using(crate::proofs::ReadingLaws::word_summed))]
pub fn sum_digits(base: u64, text: &[u8]) -> Option<u64>
    requires base_nonzero { (0 < base) × (base ≤ 16) }
    requires text_value { are_digits base text.now ≡ true }
    ensures { result ≡ as_word (numeral base text.now) }
{
    let mut n = 0u64;
    for &c in text {
        n = n.checked_mul(base)?.checked_add(digit(c)?)?;
    }
    Some(n)
}

// The integer that a text is.
pub fn read_word(text: &[u8]) -> Result<i64, ReadError>
    ensures { result ≡ reading text.now }
{
    let numeral = read_numeral(text)?;
    let n = sum_digits(numeral.base, numeral.digits).ok_or(ReadError::TooLarge)?;
    if !absolute_fits(64, numeral.negative, n) {
        return Err(ReadError::TooLarge);
    }
    Ok(from_absolute(numeral.negative, n))
}
