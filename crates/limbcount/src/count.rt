// What is counted of an operand's bits. A negative integer is counted by its complement: each limb exclusive or with what
// continues the operand.
ghost use Rattle.std.specs.Prelude.{◌≡◌, ◌+◌, ◌≤◌, ◌<◌, pos, length};
ghost use Rattle.bits.specs.Testbit.{bit_length};
ghost use Rattle.bits.specs.Count.{ones, bit_count, first_bit_set};
ghost use Rattle.limbwords.specs.Value.{value, limb_count};

use limbwords::limb::padding;
use words::sign::from_magnitude;

// How many ones two limbs have, counted as one word.
fn ones_of(low: u32, high: u32) -> u64
    ensures { result ≡ ones low + ones high }
{
    let both = u64::from(high) * 0x1_0000_0000 + u64::from(low);
    u64::from(both.count_ones())
}

// How many bits a limb has, without leading zeros.
fn length_of(w: u32) -> u64
    ensures { result ≡ bit_length (pos w) }
{
    32 - u64::from(w.leading_zeros())
}

// Two limbs a turn, and at the end the last one where it is alone. (A limb a turn takes twice the time from 32 limbs on. A `for` over
// 0..x.len() / 2 was tried: at one limb it took 1.5 times plain Rust's time, where 1.2 is the aim, and this takes 1.1.)
pub fn bit_count(x: &[u32]) -> i64
    requires { (0 < length x.now) × (length x.now ≤ 1024) }
    ensures { result ≡ bit_count (value x.now) }
{
    let sign = padding(x);
    let mut n = 0u64;
    let mut j = 0;
    while j + 1 < x.len() {
        n += ones_of(x[j] ^ sign, x[j + 1] ^ sign);
        j += 2;
    }
    if j < x.len() {
        n += ones_of(x[j] ^ sign, 0);
    }
    from_magnitude(sign != 0, n)
}

// All limbs but the last, and of that the bits below the sign. Where it has none, the limb below begins with one, since the limbs
// are the fewest.
pub fn bit_length(x: &[u32]) -> u64
    requires x_nonzero { (0 < length x.now) × (length x.now ≤ 1024) }
    requires x_len { length x.now ≡ limb_count (value x.now) }
    ensures { result ≡ bit_length (value x.now) }
{
    let last = x.len() - 1;
    32 * (last as u64) + length_of(x[last] ^ padding(x))
}

// The lowest limb that is not zero, and in it the lowest one. (The rules that the library is built to name this form: a loop over limbs,
// one over bits in it, and both left by a label with the index.)
pub fn first_bit_set(x: &[u32]) -> i64
    requires { (0 < length x.now) × (length x.now ≤ 1024) }
    ensures { result ≡ first_bit_set (value x.now) }
{
    let mut j = 0;
    'limbs: loop {
        if j == x.len() {
            break 'limbs -1;
        }
        for i in 0..32 {
            if (x[j] >> i) % 2 == 1 {
                break 'limbs (32 * j + i) as i64;
            }
        }
        j += 1;
    }
}
