// Integers of two words that wrap: of an integer s, the two words of s mod 2^128. Sums and differences wrap in each
// word, and the carry or the borrow of the low one goes to the high one.
ghost use Rattle.std.specs.Prelude.{◌≡◌, ℕ, ◌+◌, ◌*◌, ◌%◌, ◌^◌, ◌<◌, pos, ◌+ℤ◌, ◌-ℤ◌};
ghost use mir.Val.{bool_byte};
ghost use Rattle.bits.specs.Division.{mod_ℕ};
ghost use Rattle.widewords.specs.Double.{double_word};
ghost use Rattle.widewords.specs.Wide.{wide_value};

use super::wide::Wide;
use words::sign::magnitude;

#[derive(Clone, Copy)]
pub struct Double {
    pub high: u64,
    pub low: u64,
}

// The sign of x in all bits of the high word.
pub fn of_word(x: i64) -> Double
    ensures { double_word result ≡ mod_ℕ x (2 ^ 128) }
{
    let m = magnitude(x);
    if x < 0 {
        Double { high: !0, low: !m }
    } else {
        Double { high: 0, low: m }
    }
}

// The carry of a sum of two words, from their sum modulo 2^64 and one of them: a sum that has wrapped is below both.
fn carries(sum: u64, term: u64) -> bool
    ensures { (other : ℕ) → other < 2 ^ 64 → sum ≡ (term + other) % 2 ^ 64 → term + other ≡ bool_byte result * 2 ^ 64 + sum }
{
    sum < term
}

pub fn add(s: Double, t: Double) -> Double
    ensures { double_word result ≡ mod_ℕ (pos (double_word s) +ℤ pos (double_word t)) (2 ^ 128) }
{
    let low = s.low.wrapping_add(t.low);
    let carry = carries(low, s.low);
    let high = s.high.wrapping_add(t.high);
    Double {
        high: high.wrapping_add(u64::from(carry)),
        low,
    }
}

pub fn subtract(s: Double, t: Double) -> Double
    ensures { double_word result ≡ mod_ℕ (pos (double_word s) -ℤ pos (double_word t)) (2 ^ 128) }
{
    let low = s.low.wrapping_sub(t.low);
    let borrow = s.low < t.low;
    let high = s.high.wrapping_sub(t.high);
    Double {
        high: high.wrapping_sub(u64::from(borrow)),
        low,
    }
}

// A negative one is its absolute value taken from 0.
pub fn of_wide(s: Wide) -> Double
    ensures { double_word result ≡ mod_ℕ (wide_value s) (2 ^ 128) }
{
    let absolute = Double {
        high: s.high,
        low: s.low,
    };
    if s.negative {
        subtract(Double { high: 0, low: 0 }, absolute)
    } else {
        absolute
    }
}
