// Rounding to whole numbers: the magnitude as a u64, then the sign.
ghost use Rattle.std.specs.Prelude.{◌≡◌, ◌/◌, ◌^◌, ◌≤◌, pos};
ghost use Rattle.std.specs.Float.{binary64};
ghost use Rattle.std.specs.Float.Ieee.{of_int};
ghost use Rattle.std.specs.Float.Ieee.Nearest.{closest};
ghost use Rattle.std.specs.Float.Ieee.Positive.{num, den};
ghost use Rattle.flonum.specs.Rounding as meaning;
ghost use Rattle.flonum.specs.Rounding.{Small};

use super::ieee::the_nan;

#[derive(Clone, Copy, Debug, PartialEq, Eq)]
pub enum Rounding {
    Floor,
    Ceiling,
    Truncate,
    Round,
}

fn rounded_down(a: f64) -> u64
    requires { Small a }
    ensures { result ≡ num a / den a }
{
    std::num::truncating_f64_to_u64(a)
}

// A whole number as a flonum, by way of a signed one: that takes one instruction, and it does not depend on the rounding mode.
fn whole(n: u64) -> f64
    requires { n ≤ 2 ^ 53 }
    ensures { result ≡ of_int binary64 (pos n) }
{
    (n as i64) as f64
}

fn rounded_up(a: f64) -> u64
    requires { Small a }
    ensures { result ≡ meaning.rounded_up (num a) (den a) }
{
    let q = rounded_down(a);
    if whole(q) < a { q + 1 } else { q }
}

// q or q + 1, whichever is nearer: a is compared with q + 1/2.
fn rounded_even(a: f64) -> u64
    requires { Small a }
    ensures { result ≡ closest (num a) (den a) }
{
    let q = rounded_down(a);
    let middle = whole(2 * q + 1) * 0.5;
    if a < middle {
        q
    } else if middle < a {
        q + 1
    } else {
        q + q % 2
    }
}

fn magnitude(way: Rounding, negative: bool, a: f64) -> u64
    requires { Small a }
    ensures { (result ≡ meaning.magnitude way negative (num a) (den a)) × (result ≤ 2 ^ 52) }
{
    match way {
        Rounding::Floor => if negative {
            rounded_up(a)
        } else {
            rounded_down(a)
        },
        Rounding::Ceiling => if negative {
            rounded_down(a)
        } else {
            rounded_up(a)
        },
        Rounding::Truncate => rounded_down(a),
        Rounding::Round => rounded_even(a),
    }
}

pub fn rounded(way: Rounding, x: f64) -> f64
    ensures { result ≡ meaning.rounded way x }
{
    if x.is_nan() {
        return the_nan();
    }
    if 0.0 < x {
        if x < 4503599627370496.0 {
            whole(magnitude(way, false, x))
        } else {
            x
        }
    } else if x < 0.0 {
        let a = -x;
        if a < 4503599627370496.0 {
            -whole(magnitude(way, true, a))
        } else {
            x
        }
    } else {
        x
    }
}
