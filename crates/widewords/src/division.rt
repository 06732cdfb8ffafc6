// R6RS's two divisions of one word by another: div and mod, and div0 and mod0, which round to the nearest.
// All is done on absolute values: x = q y + m holds with the quotient of the absolute values and their remainder r, where m
// has x's sign; and as well with one more for the quotient and |y| - r for m, where m has the other sign.
ghost use Rattle.std.specs.Prelude.{◌-◌, ◌<◌, not, if◌then◌else◌, unsigned_abs};
ghost use Rattle.words.specs.Sign.{with_sign};
ghost use Rattle.widewords.specs.Division.{Allowed, Divided};

use words::sign::{absolute, is_negative};

// A quotient and a remainder, each as its sign and its absolute value: that of the quotient may be 2^63.
#[derive(Clone, Copy)]
pub struct Quotient {
    pub negative: bool,
    pub absolute: u64,
    pub remainder_negative: bool,
    pub remainder: u64,
}

// Whether the quotient is rounded up in absolute value, for a dividend with a sign and an absolute value that leaves r by b.
fn rounds_up(nearest: bool, negative: bool, r: u64, b: u64) -> bool
    requires { r < b }
    ensures { Allowed nearest b (if result then with_sign (not negative) (b - r) else with_sign negative r) }
{
    if nearest {
        if negative { b - r < r } else { b - r <= r }
    } else {
        negative && r != 0
    }
}

// div and mod of x by y, or div0 and mod0 where nearest.
#[inline(always)]
pub fn divide(nearest: bool, x: i64, y: i64) -> Quotient
    requires { 0 < unsigned_abs y }
    ensures { Divided nearest x y result }
{
    let x_negative = is_negative(x);
    let negative = x_negative != is_negative(y);
    let a = absolute(x);
    let b = absolute(y);
    let q = a / b;
    let r = a % b;
    if rounds_up(nearest, x_negative, r, b) {
        Quotient {
            negative,
            absolute: q + 1,
            remainder_negative: !x_negative,
            remainder: b - r,
        }
    } else {
        Quotient {
            negative,
            absolute: q,
            remainder_negative: x_negative,
            remainder: r,
        }
    }
}
