// The two parts of an integer s at a width, s mod0 2^width and s div0 2^width, from the words of s that wrap.
ghost use Rattle.std.specs.Prelude.{◌≡◌, ◌+◌, ◌/◌, ◌%◌, ◌^◌, ◌≤◌, pos};
ghost use Rattle.bits.specs.Division.{div0, mod0};
ghost use Rattle.widewords.specs.Double.{double_word};

use super::double::{Double, add};
use words::sign::{from_magnitude, power};

// 2^width - 1. Here and below no branch asks for width 64, where 2^width is no word.
fn ones(width: u64) -> u64
    requires { (1 ≤ width) × (width ≤ 64) }
    ensures { result + 1 ≡ 2 ^ width }
{
    let half = power(width - 1);
    half + (half - 1)
}

// The low bits of n, as many as the width has, of which the highest is the sign.
fn signed(width: u64, n: u64) -> i64
    requires { (1 ≤ width) × (width ≤ 64) }
    ensures { result ≡ mod0 (pos n) (pos (2 ^ width)) }
{
    let ones = ones(width);
    let bits = n & ones;
    if bits <= ones / 2 {
        from_magnitude(false, bits)
    } else {
        from_magnitude(true, ones - bits)
    }
}

// The word of bits from the width on.
fn quotient(width: u64, s: Double) -> u64
    requires { (1 ≤ width) × (width ≤ 64) }
    ensures { result ≡ double_word s / 2 ^ width % 2 ^ 64 }
{
    (s.high << (64 - width)) + (s.low / 2 >> (width - 1))
}

// The low word, which at width 64 is the part itself.
pub fn low_part(width: u64, s: Double) -> i64
    requires { (1 ≤ width) × (width ≤ 64) }
    ensures { result ≡ mod0 (pos (double_word s)) (pos (2 ^ width)) }
{
    signed(width, s.low)
}

// The quotient after half of 2^width is added, so that it is rounded to the nearest; as a word, which is all of it where it fits one.
pub fn high_part(width: u64, s: Double) -> i64
    requires { (1 ≤ width) × (width ≤ 64) }
    ensures { result ≡ mod0 (div0 (pos (double_word s)) (pos (2 ^ width))) (pos (2 ^ 64)) }
{
    let half = Double {
        high: 0,
        low: power(width - 1),
    };
    signed(64, quotient(width, add(s, half)))
}
