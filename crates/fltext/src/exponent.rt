// The exponent at the end of a number.
ghost use Rattle.std.specs.Prelude.{◌≡◌};
ghost use Rattle.fltext.specs.Forms as forms;
ghost use Rattle.fltext.specs.Forms.{is_letter};
ghost use Rattle.fltext.specs.Inner as inner;
ghost use Rattle.fltext.specs.Inner.{exponent_of, exponent_reading};

use super::FlonumError;
use super::form::{is_minus, sign_length};
use text::digit::are_digits;
use text::sum_digits;

// What the exponent is: up - down, and one of the two is 0.
#[derive(Clone, Copy)]
pub struct Exponent {
    pub up: u64,
    pub down: u64,
}

// Whether a byte is the letter before an exponent.
fn is_letter(hexadecimal: bool, c: u8) -> bool
    ensures { result ≡ is_letter hexadecimal c }
{
    match c {
        b'p' | b'P' => hexadecimal,
        b'e' | b'E' => !hexadecimal,
        _ => false,
    }
}

fn signed(negative: bool, n: u64) -> Exponent
    ensures { result ≡ inner.signed negative n }
{
    let (up, down) = if negative { (0, n) } else { (n, 0) };
    Exponent { up, down }
}

// The exponent that digits are.
fn of_digits(negative: bool, digits: &[u8]) -> Result<Exponent, FlonumError>
    ensures { result ≡ exponent_of negative digits.now }
{
    if digits.is_empty() || !are_digits(10, digits) {
        return Err(FlonumError::Malformed);
    }
    match sum_digits(10, digits) {
        Some(n) if n <= 1500 => Ok(signed(negative, n)),
        _ => Err(FlonumError::TooLong),
    }
}

fn after_letter(text: &[u8]) -> Result<Exponent, FlonumError>
    ensures { result ≡ exponent_of (forms.is_minus text.now) (forms.after_sign text.now) }
{
    of_digits(is_minus(text), &text[sign_length(text)..])
}

pub fn read_exponent(hexadecimal: bool, text: &[u8]) -> Result<Exponent, FlonumError>
    ensures { result ≡ exponent_reading hexadecimal text.now }
{
    if text.is_empty() {
        return Ok(Exponent { up: 0, down: 0 });
    }
    if !is_letter(hexadecimal, text[0]) {
        return Err(FlonumError::Malformed);
    }
    after_letter(&text[1..])
}
