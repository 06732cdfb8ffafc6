// Codes 37 to 39: the arithmetic shifts. A shift to the left may be refused for size; one to the right never is.
ghost use Rattle.std.specs.Prelude.{◌≡◌, true, ◌≤◌, ◌<◌, pos};
ghost use Rattle.bits.specs.Shift.{shift_left, shift_right};
ghost use Rattle.fxtable.specs.Domains.{is_width};
ghost use Rattle.fxtable.specs.Calls.{answer, counted, outcome};
ghost use Rattle.fxtable.specs.Calls as calls;

use fxstages::overflow::exact;
use fxtable::answer::{Answer, done};
use fxtable::call::Call;
use outcomes::refusal::Refusal;
use widewords::wide::multiply;
use words::sign::{absolute, from_magnitude, is_negative, magnitude, power};

// x * 2^k
#[inline(always)]
fn left(width: u64, x: i64, k: u64) -> Answer
    requires { (is_width width ≡ true) × (k < 64) }
    ensures { result ≡ answer (calls.checked 6 width (shift_left x k, pos 0)) }
{
    exact(
        Refusal::Overflow,
        width,
        multiply(is_negative(x), absolute(x), power(k)),
    )
}

// The floor of x / 2^k, whose magnitude is that of x without its low k bits.
fn right(x: i64, k: u64) -> i64
    requires { k < 64 }
    ensures { result ≡ shift_right x k }
{
    from_magnitude(is_negative(x), magnitude(x) >> k)
}

// fxarithmetic-shift, which goes to the right where the distance is negative.
#[inline(always)]
pub fn shift_either(call: Call) -> Answer
    requires { call.code ≡ 37 }
    ensures { result ≡ answer (outcome call.width call.code (counted call.args call.count)) }
{
    let x = call.args[0];
    let distance = call.args[1];
    let k = absolute(distance);
    if is_negative(distance) {
        done(right(x, k), 0)
    } else {
        left(call.width, x, k)
    }
}

// fxarithmetic-shift-left
#[inline(always)]
pub fn shift_left(call: Call) -> Answer
    requires { call.code ≡ 38 }
    ensures { result ≡ answer (outcome call.width call.code (counted call.args call.count)) }
{
    let x = call.args[0];
    left(call.width, x, absolute(call.args[1]))
}

// fxarithmetic-shift-right
pub fn shift_right(call: Call) -> Answer
    requires { call.code ≡ 39 }
    ensures { result ≡ answer (outcome call.width call.code (counted call.args call.count)) }
{
    let x = call.args[0];
    done(right(x, absolute(call.args[1])), 0)
}

#[inline(always)]
pub fn shift(call: Call) -> Answer
    requires { (37 ≤ call.code) × (call.code ≤ 39) }
    ensures { result ≡ answer (outcome call.width call.code (counted call.args call.count)) }
{
    match call.code {
        37 => shift_either(call),
        38 => shift_left(call),
        _ => shift_right(call),
    }
}
