// The parts of a text: its sign, its digits and its point.
ghost use Rattle.std.specs.Prelude.{◌≡◌};
ghost use Rattle.fltext.specs.Forms as forms;
ghost use Rattle.fltext.specs.Forms.{is_minus, sign_length, is_infinite, is_hex, digit_count, point_length};
ghost use Rattle.fltext.specs.Inner as inner;

use super::number::base;
use text::byte_at;
use text::digit::is_digit;

#[derive(Clone, Copy)]
pub struct Parts {
    pub whole: usize,
    pub from: usize,
    pub end: usize,
}

pub fn is_minus(text: &[u8]) -> bool
    ensures { result ≡ is_minus text.now }
{
    byte_at(text, 0) == b'-'
}

pub fn sign_length(text: &[u8]) -> usize
    ensures { result ≡ sign_length text.now }
{
    match byte_at(text, 0) {
        b'+' | b'-' => 1,
        _ => 0,
    }
}

pub fn is_infinite(text: &[u8]) -> bool
    ensures { result ≡ is_infinite text.now }
{
    text == b"inf".as_slice() || text == b"inf.0".as_slice()
}

pub fn is_nan(text: &[u8]) -> bool
    ensures { result ≡ forms.is_nan text.now }
{
    text == b"nan".as_slice() || text == b"nan.0".as_slice()
}

pub fn is_hexadecimal(text: &[u8]) -> bool
    ensures { result ≡ is_hex text.now }
{
    byte_at(text, 0) == b'0' && matches!(byte_at(text, 1), b'x' | b'X')
}

// How many digits a text begins with.
fn digit_count(base: u64, text: &[u8]) -> usize
    ensures { result ≡ digit_count base text.now }
{
    text.iter()
        .position(|&c| !is_digit(base, c))
        .unwrap_or(text.len())
}

fn point_length(text: &[u8]) -> usize
    ensures { result ≡ point_length text.now }
{
    if byte_at(text, 0) == b'.' { 1 } else { 0 }
}

pub fn take_apart(hexadecimal: bool, text: &[u8]) -> Parts
    ensures { result ≡ inner.parts hexadecimal text.now }
{
    let base = base(hexadecimal);
    let whole = digit_count(base, text);
    let from = whole + point_length(&text[whole..]);
    let end = from + digit_count(base, &text[from..]);
    Parts { whole, from, end }
}
