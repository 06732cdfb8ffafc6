// The bits of the nearest flonum.
ghost use Rattle.std.specs.Prelude.{◌≡◌, false, ◌*◌, ◌^◌, ◌<◌, ◌≤◌, length};
ghost use Rattle.text.specs.Naturals.{natural};
ghost use Rattle.fltext.specs.Packing.{rounded_up, packed, nearest_bits};

use super::limbs::{capped, divide};

fn rounded_up(q: u64, half: bool, rest: bool) -> u64
    requires { q < 2 ^ 53 }
    ensures value { result ≡ rounded_up q half rest }
    ensures upper_bound { result ≤ 2 ^ 53 }
{
    match (half, rest) {
        (false, _) => q,
        (true, true) => q + 1,
        (true, false) => q + q % 2,
    }
}

// The exponent's field and the digits of q * 2^k, or of an infinity.
fn exponent_field(k: u64, q: u64) -> u64
    requires { q ≤ 2 ^ 53 }
    ensures value { result ≡ packed false k q }
    ensures upper_bound { result ≤ 2047 * 2 ^ 52 }
{
    if k < 2046 {
        k * 0x10_0000_0000_0000 + q
    } else {
        0x7FF0_0000_0000_0000
    }
}

fn pack(negative: bool, k: u64, q: u64) -> u64
    requires { q ≤ 2 ^ 53 }
    ensures { result ≡ packed negative k q }
{
    let magnitude = exponent_field(k, q);
    if negative {
        0x8000_0000_0000_0000 + magnitude
    } else {
        magnitude
    }
}

// Halves the number until 53 bits are left. The bit that was taken off last is the half; `below` tells whether something is left below it.
pub fn nearest_bits(negative: bool, rest: bool, x: &mut [u32]) -> u64
    requires { length x.old ≤ 1000 }
    ensures { result ≡ nearest_bits negative (natural x.old) rest }
{
    let mut below = rest;
    let mut k = 0;
    loop {
        let half = divide(x, 2) != 0;
        let q = capped(x);
        if q < 0x20_0000_0000_0000 {
            return pack(negative, k, rounded_up(q, half, below));
        }
        below = below || half;
        k += 1;
    }
}
