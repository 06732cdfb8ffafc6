// The parts of a text: its sign, its base and its digits.
ghost use Rattle.std.specs.Prelude.{◌≡◌, true, false, cond, ◌+◌, ◌<◌, ◌≤◌, MatchResult};
ghost use Rattle.text.specs.Numerals.{byte_at, one_of, letter_base, zero_base, prefix_base, is_hash, are_digits, is_integer};
ghost use Rattle.text.specs.Inner.{parts, IsNumeral};
ghost use Rattle.text.specs.declared.ReadError.{ReadError};

use super::ReadError;
use super::digit::are_digits;

#[derive(Clone, Copy)]
pub struct Parts {
    pub negative: bool,
    pub base: u64,
    pub start: usize,
}

// An integer as it is written.
#[derive(Clone, Copy)]
pub struct Numeral<'a> {
    pub negative: bool,
    pub base: u64,
    pub digits: &'a [u8],
    ghost base_bounds: { (0 < base) × (base ≤ 16) },
    ghost are_digits: { are_digits base digits.now ≡ true },
}

// A byte of the text, or 0 after its end.
pub fn byte_at(text: &[u8], i: usize) -> u8
    ensures { result ≡ byte_at text.now i }
{
    if i < text.len() { text[i] } else { 0 }
}

// The base that a letter is after #, or 0: no byte is a digit below 0, so that the text is no integer. An option would be turned into it at once.
fn letter_base(c: u8) -> u64
    ensures { result ≡ letter_base c }
{
    match c {
        b'x' | b'X' => 16,
        b'd' | b'D' => 10,
        b'o' | b'O' => 8,
        b'b' | b'B' => 2,
        _ => 0,
    }
}

// The base where a byte comes after a 0.
fn zero_base(c: u8) -> u64
    ensures { result ≡ zero_base c }
{
    match c {
        b'x' | b'X' => 16,
        b'b' | b'B' => 2,
        _ => 10,
    }
}

// The base of digits before which 0x, 0b or neither stands.
fn prefix_base(text: &[u8], at: usize) -> u64
    requires { at < 2 }
    ensures { result ≡ prefix_base text.now at }
{
    if byte_at(text, at) != b'0' {
        return 10;
    }
    zero_base(byte_at(text, at + 1))
}

// The place after a sign, or the place itself where there is none.
fn after_sign(text: &[u8], at: usize) -> usize
    requires { at < 3 }
    ensures value { result ≡ cond (one_of 43 45 (byte_at text.now at)) (at + 1) at }
    ensures upper_bound { result ≤ at + 1 }
{
    match byte_at(text, at) {
        b'+' | b'-' => at + 1,
        _ => at,
    }
}

// The parts of a text that begins with #.
fn after_hash(text: &[u8]) -> Parts
    requires { is_hash text.now ≡ true }
    ensures { result ≡ parts text.now }
{
    let letter = byte_at(text, 1);
    let sign = byte_at(text, 2);
    Parts {
        negative: sign == b'-',
        base: letter_base(letter),
        start: after_sign(text, 2),
    }
}

// The parts of any other text.
fn without_hash(text: &[u8]) -> Parts
    requires { is_hash text.now ≡ false }
    ensures { result ≡ parts text.now }
{
    let negative = byte_at(text, 0) == b'-';
    let after = after_sign(text, 0);
    let base = prefix_base(text, after);
    if base == 10 {
        return Parts {
            negative,
            base,
            start: after,
        };
    }
    Parts {
        negative,
        base,
        start: after + 2,
    }
}

fn take_apart(text: &[u8]) -> Parts
    ensures { result ≡ parts text.now }
{
    if byte_at(text, 0) == b'#' {
        after_hash(text)
    } else {
        without_hash(text)
    }
}

// The sign, the base and the digits of the integer that a text is: one digit or more, to the end of the text.
pub fn read_numeral(text: &[u8]) -> Result<Numeral<'_>, ReadError>
    ensures { MatchResult result (λ n. IsNumeral text.now n.negative n.base n.digits.now) (λ e. (e ≡ ReadError.Malformed) × (is_integer text.now ≡ false)) }
{
    let Parts {
        negative,
        base,
        start,
    } = take_apart(text);
    if text.len() <= start || !are_digits(base, &text[start..]) {
        return Err(ReadError::Malformed);
    }
    Ok(Numeral {
        negative,
        base,
        digits: &text[start..],
    })
}
