// The flonum of digits and an exponent.
ghost use Rattle.std.specs.Prelude.{◌≡◌, ◌+◌, ◌-◌, ◌*◌, ◌^◌, ◌<◌, ◌≤◌, length};
ghost use Rattle.fltext.specs.Forms as forms;
ghost use Rattle.fltext.specs.Readings.{limit, flonum};
ghost use Rattle.fltext.specs.Limbs.{Becomes};
ghost use Rattle.fltext.specs.Inner.{Digits, scaled, room_for, Cleared};
ghost use Rattle.fltext.specs.Packing.{quotient_bits};

use super::exponent::Exponent;
use super::rounding::nearest_bits;
use super::scale::{append_digits, divide_power, multiply_power};

// The base of the digits.
pub fn base(hexadecimal: bool) -> u64
    ensures value { result ≡ forms.base hexadecimal }
    ensures result_nonzero { (0 < result) × (result ≤ 16) }
{
    if hexadecimal { 16 } else { 10 }
}

// The number to which the exponent is one.
fn radix(hexadecimal: bool) -> u64
    ensures value { result ≡ forms.radix hexadecimal }
    ensures result_nonzero { (0 < result) × (result ≤ 16) }
{
    if hexadecimal { 2 } else { 10 }
}

// What digits after the point take from the exponent.
fn places(hexadecimal: bool, n: usize) -> u64
    requires { n ≤ limit }
    ensures value { result ≡ forms.places hexadecimal n }
    ensures upper_bound { result ≤ 6000 }
{
    if hexadecimal { 4 * n as u64 } else { n as u64 }
}

// Room for 3,000 digits in base 16 and 1,075 bits.
pub fn limb_space() -> [u32; 416]
    ensures result_len { length result ≡ 416 }
    ensures cleared { Cleared 3000 result }
{
    [0; 416]
}

// How many limbs are room for so many digits: the fewer, the quicker is the work on them.
fn limb_count(digits: u64) -> usize
    requires { digits ≤ 3000 }
    ensures { (room_for digits ≤ 32 * result) × (result ≤ 416) }
{
    ((4 * digits + 1075) / 32 + 1) as usize
}

// The digits of a number before and after its point: no more than a number may have.
#[derive(Clone, Copy)]
pub struct Digits<'a> {
    pub hexadecimal: bool,
    pub whole: &'a [u8],
    pub fraction: &'a [u8],
    ghost digits: { Digits hexadecimal whole.now fraction.now },
}

impl Digits<'_> {
    // Puts the number of all digits, times a power of the radix and 2^1075, into limbs that are 0.
    fn put_numerator(&self, power: u64, x: &mut [u32])
        requires { Cleared (length self.now.whole.now + length self.now.fraction.now + power) x.old }
        ensures { Becomes (scaled self.now.hexadecimal self.now.whole.now self.now.fraction.now power * 2 ^ 1075) x.old x.new }
    {
        let base = base(self.hexadecimal);
        append_digits(base, self.whole, x);
        append_digits(base, self.fraction, x);
        multiply_power(radix(self.hexadecimal), power, x);
        multiply_power(0x200_0000, 43, x);
    }

    // The bits of the flonum nearest to the number of all digits, times the radix to the power `up` and divided by it to the power `down`. The
    // limbs are work space.
    fn nearest_within(&self, negative: bool, up: u64, down: u64, x: &mut [u32]) -> u64
        requires cleared { Cleared (length self.now.whole.now + length self.now.fraction.now + up) x.old }
        requires x_len_bound { length x.old ≤ 416 }
        ensures { result ≡ quotient_bits negative (scaled self.now.hexadecimal self.now.whole.now self.now.fraction.now up) (forms.radix self.now.hexadecimal ^ down) }
    {
        self.put_numerator(up, x);
        let rest = divide_power(radix(self.hexadecimal), down, x);
        nearest_bits(negative, rest, x)
    }

    // The flonum nearest to the number of all digits with an exponent.
    pub fn nearest(&self, negative: bool, exponent: Exponent) -> f64
        requires { (exponent.up ≤ limit) × (exponent.down ≤ limit) }
        ensures { result ≡ flonum negative self.now.hexadecimal self.now.whole.now self.now.fraction.now exponent.up exponent.down }
    {
        let up = exponent.up;
        let down = exponent.down + places(self.hexadecimal, self.fraction.len());
        let power = up.saturating_sub(down);
        let n = limb_count((self.whole.len() + self.fraction.len()) as u64 + power);
        let mut space = limb_space();
        let bits = self.nearest_within(negative, power, down.saturating_sub(up), &mut space[..n]);
        f64::from_bits(bits)
    }
}
