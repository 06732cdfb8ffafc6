// Digits.
ghost use Rattle.std.specs.Prelude.{◌≡◌, ltb};
ghost use Rattle.text.specs.Numerals as numerals;
ghost use Rattle.text.specs.Numerals.{digit_of, are_digits};

// The digit that a byte is, in base 16 or below.
pub fn digit(c: u8) -> Option<u64>
    ensures { result ≡ digit_of c }
{
    char::from(c).to_digit(16).map(u64::from)
}

// Whether it is a digit in a base.
pub fn is_digit(base: u64, c: u8) -> bool
    ensures { result ≡ ltb (numerals.digit c) base }
{
    digit(c).unwrap_or(16) < base
}

pub fn are_digits(base: u64, text: &[u8]) -> bool
    ensures { result ≡ are_digits base text.now }
{
    text.iter().all(|&c| is_digit(base, c))
}
