// Fields of bits: the positions of an i64 from start up to, but not at, end. A field is read as a number below 2^(end - start),
// and replaced and reversed as such a number.
ghost use Rattle.std.specs.Prelude.{◌≡◌, ◌<◌, ◌≤◌, ◌*◌, ◌%◌, ◌-◌, ◌^◌, pos};
ghost use Rattle.bits.specs.Testbit.{testbit, fill, of_bits};
ghost use Rattle.words.specs.Sign.{of_magnitude};
ghost use Rattle.bits.specs.Shift.{shift_right};
ghost use Rattle.bits.specs.Division.{mod_ℕ};
ghost use Rattle.bits.specs.Field.{copy_bit_field, reverse_bit_field};

use super::reverse::reverse_word;
use super::sign::{from_magnitude, is_negative, magnitude, power};

// The low k bits of v.
fn low(v: u64, k: u64) -> u64
    requires { k < 64 }
    ensures { result ≡ v % 2 ^ k }
{
    v & (power(k) - 1)
}

pub fn shifted(v: u64, k: u64) -> u64
    requires { (k < 64) × (v * 2 ^ k < 2 ^ 64) }
    ensures { result ≡ v * 2 ^ k }
{
    v << k
}

// The low bits of the integer with a sign and a magnitude: those of the magnitude, or their complements.
fn signed_low(negative: bool, m: u64, size: u64) -> u64
    requires { size < 64 }
    ensures { result ≡ mod_ℕ (of_magnitude negative m) (2 ^ size) }
{
    let bits = low(m, size);
    if negative {
        power(size) - 1 - bits
    } else {
        bits
    }
}

// The bits of x from start on, `size` of them.
pub fn bits_from(x: i64, start: u64, size: u64) -> u64
    requires { (start < 64) × (size < 64) }
    ensures { result ≡ mod_ℕ (shift_right x start) (2 ^ size) }
{
    signed_low(is_negative(x), magnitude(x) >> start, size)
}

pub fn bit_set(x: i64, k: u64) -> bool
    requires { k < 64 }
    ensures { result ≡ testbit x k }
{
    bits_from(x, k, 1) == 1
}

pub fn low_bits(x: i64, size: u64) -> u64
    requires { size < 64 }
    ensures { result ≡ mod_ℕ x (2 ^ size) }
{
    bits_from(x, 0, size)
}

pub fn bit_field(x: i64, start: u64, end: u64) -> u64
    requires { (start ≤ end) × (end < 64) }
    ensures { result ≡ mod_ℕ (shift_right x start) (2 ^ (end - start)) }
{
    bits_from(x, start, end - start)
}

// x with its field replaced by the low bits of y. Where x is negative, its magnitude gets their complements.
//
//     start 2, end 5     x         h g f e d c b a
//                        y                   r q p
//                        result    h g f r q p b a
#[inline(always)]
pub fn copy_bit_field(x: i64, start: u64, end: u64, y: u64) -> i64
    requires { (start ≤ end) × (end < 64) }
    ensures { result ≡ copy_bit_field x start end (pos y) }
{
    let negative = is_negative(x);
    let m = magnitude(x);
    let above = m - low(m, end);
    let field = shifted(signed_low(negative, y, end - start), start);
    from_magnitude(negative, above + field + low(m, start))
}

// The low k bits of x, and the sign from k on.
pub fn extend(negative: bool, x: i64, k: u64) -> i64
    requires { k < 64 }
    ensures { result ≡ of_bits k (testbit x) (fill negative) }
{
    from_magnitude(negative, signed_low(negative, low_bits(x, k), k))
}

// A field v of some size with its bits in the opposite order. In the whole word's opposite order they stand 64 - size too high.
pub fn reverse(v: u64, size: u64) -> u64
    requires { (size < 64) × (v < 2 ^ size) }
    ensures { pos result ≡ reverse_bit_field (pos v) 0 size }
{
    reverse_word(v) / 2 >> (63 - size)
}
