// Signed 64-bit numbers, from limbs and as limbs.
ghost use Rattle.std.specs.Prelude.{◌≡◌, ◌^◌, ◌<◌, length};
ghost use Rattle.bits.specs.Testbit.{bit_length};
ghost use Rattle.limbwords.specs.Value.{value};
ghost use Rattle.limbwords.specs.Results.{bits_from};

use super::limb::{limb, padding};
use words::field::bits_from;
use words::sign::from_magnitude;

// The value of limbs that one word can hold.
pub fn word(x: &[u32]) -> i64
    requires { (0 < length x.now) × (bit_length (value x.now) < 64) }
    ensures { result ≡ value x.now }
{
    let sign = padding(x);
    let low = u64::from(limb(x, 0) ^ sign);
    let high = u64::from(limb(x, 1) ^ sign);
    from_magnitude(sign != 0, high * 0x1_0000_0000 + low)
}

// 32 bits of a signed word from a position on.
pub fn word_bits(v: i64, at: u64) -> u32
    requires { at < 64 }
    ensures { result ≡ bits_from v at }
{
    bits_from(v, at, 32) as u32
}
