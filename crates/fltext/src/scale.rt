// A number of limbs made from digits, and multiplied and divided by powers.
ghost use Rattle.std.specs.Prelude.{◌≡◌, true, ◌*◌, ◌/◌, ◌%◌, ◌^◌, ◌<◌, ◌≤◌, length};
ghost use Rattle.text.specs.Numerals.{are_digits, numeral_from};
ghost use Rattle.text.specs.Naturals.{natural};
ghost use Rattle.fltext.specs.Limbs.{Becomes};
ghost use Rattle.fltext.specs.Packing.{nonzero};

use super::limbs::{divide, multiply_add};
use text::digit::digit;

// Appends digits to those of the number.
pub fn append_digits(base: u64, digits: &[u8], x: &mut [u32])
    requires base_nonzero { (0 < base) × (base ≤ 16) }
    requires digits_value { are_digits base digits.now ≡ true }
    requires digits_bound { numeral_from base (natural x.old) digits.now < 2 ^ (32 * length x.old) }
    ensures { Becomes (numeral_from base (natural x.old) digits.now) x.old x.new }
{
    for &c in digits {
        multiply_add(x, base, digit(c).unwrap());
    }
}

// The number times b^n.
pub fn multiply_power(b: u64, n: u64, x: &mut [u32])
    requires b_nonzero { (0 < b) × (b < 2 ^ 32) }
    requires n_bound { natural x.old * b ^ n < 2 ^ (32 * length x.old) }
    ensures { Becomes (natural x.old * b ^ n) x.old x.new }
{
    for _ in 0..n {
        multiply_add(x, b, 0);
    }
}

// The quotient by b^n. Answers whether the remainder is not 0.
pub fn divide_power(b: u64, n: u64, x: &mut [u32]) -> bool
    requires { (0 < b) × (b < 2 ^ 32) }
    ensures value { result ≡ nonzero (natural x.old % b ^ n) }
    ensures becomes { Becomes (natural x.old / b ^ n) x.old x.new }
{
    let mut rest = false;
    for _ in 0..n {
        rest |= divide(x, b) != 0;
    }
    rest
}
