// Counts of the bits of a word: the ones, the length, the position of the lowest one.
ghost use Rattle.std.specs.Prelude.{◌≡◌, pos};
ghost use Rattle.bits.specs.Testbit.{bit_length};
ghost use Rattle.bits.specs.Count.{bit_count, first_bit_set};

use super::sign::{absolute, from_magnitude, is_negative, magnitude};

// The ones of x; where x is negative, not of the ones of not x.
pub fn bit_count(x: i64) -> i64
    ensures { result ≡ bit_count x }
{
    let ones = u64::from(magnitude(x).count_ones());
    from_magnitude(is_negative(x), ones)
}

// The bits of x, or of not x where x is negative, without leading zeros.
pub fn length(x: i64) -> i64
    ensures { result ≡ pos (bit_length x) }
{
    let zeros = u64::from(magnitude(x).leading_zeros());
    from_magnitude(false, 64 - zeros)
}

// The position of the lowest one, which x and its absolute value have in common; -1 for 0.
pub fn first_bit_set(x: i64) -> i64
    ensures { result ≡ first_bit_set x }
{
    let n = absolute(x);
    if n == 0 {
        -1
    } else {
        from_magnitude(false, u64::from(n.trailing_zeros()))
    }
}
