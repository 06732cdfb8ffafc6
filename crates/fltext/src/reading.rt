// A text as a flonum.
ghost use Rattle.std.specs.Prelude.{◌≡◌, true, cond, ◌+◌, ◌≤◌, leb, length, Ok, Err};
ghost use Rattle.std.specs.Float.{inf};
ghost use Rattle.text.specs.Numerals.{are_digits};
ghost use Rattle.fltext.specs.declared.FlonumError.{FlonumError};
ghost use Rattle.fltext.specs.Forms as forms;
ghost use Rattle.fltext.specs.Readings.{limit, flonum, number_reading, unsigned_reading, flonum_reading};

use super::FlonumError;
use super::exponent::{Exponent, read_exponent};
use super::form::{Parts, is_hexadecimal, is_infinite, is_minus, is_nan, sign_length, take_apart};
use super::number::Digits;
use flonum::ieee::the_nan;

fn infinity(negative: bool) -> f64
    ensures { result ≡ inf negative }
{
    if negative {
        f64::from_bits(0xFFF0_0000_0000_0000)
    } else {
        f64::from_bits(0x7FF0_0000_0000_0000)
    }
}

// A number and its exponent, where its digits are not too many.
fn read_digits(
    negative: bool,
    hexadecimal: bool,
    whole: &[u8],
    fraction: &[u8],
    exponent: Exponent,
) -> Result<f64, FlonumError>
    requires whole_value { (are_digits (forms.base hexadecimal) whole.now ≡ true) × (are_digits (forms.base hexadecimal) fraction.now ≡ true) }
    requires up_le_limit { (exponent.up ≤ limit) × (exponent.down ≤ limit) }
    ensures { result ≡ cond (leb (length whole.now + length fraction.now) limit) (Ok (flonum negative hexadecimal whole.now fraction.now exponent.up exponent.down)) (Err FlonumError.TooLong) }
{
    if whole.len().saturating_add(fraction.len()) > 1500 {
        return Err(FlonumError::TooLong);
    }
    let digits = Digits {
        hexadecimal,
        whole,
        fraction,
    };
    Ok(digits.nearest(negative, exponent))
}

fn read_number(negative: bool, hexadecimal: bool, text: &[u8]) -> Result<f64, FlonumError>
    ensures { result ≡ number_reading negative hexadecimal text.now }
{
    let Parts { whole, from, end } = take_apart(hexadecimal, text);
    if whole + (end - from) == 0 {
        return Err(FlonumError::Malformed);
    }
    let exponent = read_exponent(hexadecimal, &text[end..])?;
    read_digits(
        negative,
        hexadecimal,
        &text[..whole],
        &text[from..end],
        exponent,
    )
}

fn read_unsigned(negative: bool, text: &[u8]) -> Result<f64, FlonumError>
    ensures { result ≡ unsigned_reading negative text.now }
{
    if is_infinite(text) {
        return Ok(infinity(negative));
    }
    if is_nan(text) {
        return Ok(the_nan());
    }
    if is_hexadecimal(text) {
        return read_number(negative, true, &text[2..]);
    }
    read_number(negative, false, text)
}

pub fn read_flonum(text: &[u8]) -> Result<f64, FlonumError>
    ensures { result ≡ flonum_reading text.now }
{
    read_unsigned(is_minus(text), &text[sign_length(text)..])
}
