// Products of words that are exact: the result has a sign and two words.
ghost use Rattle.std.specs.Prelude.{◌≡◌, ◌*◌, ◌*ℤ◌};
ghost use Rattle.words.specs.Sign.{with_sign};
ghost use Rattle.widewords.specs.Wide.{wide_value};

use words::sign::{absolute, is_negative};

#[derive(Clone, Copy)]
pub struct Wide {
    pub negative: bool,
    pub high: u64,
    pub low: u64,
}

// a * b, by halves of 32 bits, in columns: each sum below is at most 2^64 - 1.
#[inline(always)]
pub fn multiply(negative: bool, a: u64, b: u64) -> Wide
    ensures { wide_value result ≡ with_sign negative (a * b) }
{
    let a0 = a % 0x1_0000_0000;
    let a1 = a / 0x1_0000_0000;
    let b0 = b % 0x1_0000_0000;
    let b1 = b / 0x1_0000_0000;
    let first = a0 * b0;
    let second = a1 * b0 + first / 0x1_0000_0000;
    let third = a0 * b1 + second % 0x1_0000_0000;
    Wide {
        negative,
        high: a1 * b1 + second / 0x1_0000_0000 + third / 0x1_0000_0000,
        low: third % 0x1_0000_0000 * 0x1_0000_0000 + first % 0x1_0000_0000,
    }
}

#[inline(always)]
pub fn product(x: i64, y: i64) -> Wide
    ensures { wide_value result ≡ x *ℤ y }
{
    multiply(is_negative(x) != is_negative(y), absolute(x), absolute(y))
}
