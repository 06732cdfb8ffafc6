// Codes 35, 36, 40 and 41: fxbit-field, fxcopy-bit-field, fxrotate-bit-field, fxreverse-bit-field. Argument 0 has a field, whose
// start is argument 1 and its end argument 2.
ghost use Rattle.std.specs.Prelude.{◌≤◌, ◌<◌, ◌≡◌};
ghost use Rattle.fxtable.specs.Calls.{answer, counted, outcome};

use fxtable::answer::{Answer, done};
use fxtable::call::Call;
use words::field;
use words::rotation::rotate_bit_field;
use words::sign::absolute;

// fxbit-field
pub fn taken(call: Call) -> Answer
    requires { call.code ≡ 35 }
    ensures { result ≡ answer (outcome call.width call.code (counted call.args call.count)) }
{
    let x = call.args[0];
    let start = absolute(call.args[1]);
    let end = absolute(call.args[2]);
    done(field::bit_field(x, start, end) as i64, 0)
}

// fxcopy-bit-field
#[inline(always)]
pub fn copied(call: Call) -> Answer
    requires { call.code ≡ 36 }
    ensures { result ≡ answer (outcome call.width call.code (counted call.args call.count)) }
{
    let x = call.args[0];
    let start = absolute(call.args[1]);
    let end = absolute(call.args[2]);
    let source = field::low_bits(call.args[3], end - start);
    done(field::copy_bit_field(x, start, end, source), 0)
}

// fxrotate-bit-field
#[inline(always)]
pub fn rotated(call: Call) -> Answer
    requires { call.code ≡ 40 }
    ensures { result ≡ answer (outcome call.width call.code (counted call.args call.count)) }
{
    let x = call.args[0];
    let start = absolute(call.args[1]);
    let end = absolute(call.args[2]);
    let c = absolute(call.args[3]);
    done(rotate_bit_field(x, start, end, c), 0)
}

// fxreverse-bit-field, which takes the field as a number, and puts the new one back.
#[inline(always)]
pub fn reversed(call: Call) -> Answer
    requires { call.code ≡ 41 }
    ensures { result ≡ answer (outcome call.width call.code (counted call.args call.count)) }
{
    let x = call.args[0];
    let start = absolute(call.args[1]);
    let end = absolute(call.args[2]);
    let turned = field::reverse(field::bit_field(x, start, end), end - start);
    done(field::copy_bit_field(x, start, end, turned), 0)
}

#[inline(always)]
pub fn fields(call: Call) -> Answer
    requires { (35 ≤ call.code) × (call.code ≤ 41) × (36 < call.code → 40 ≤ call.code) }
    ensures { result ≡ answer (outcome call.width call.code (counted call.args call.count)) }
{
    match call.code {
        35 => taken(call),
        36 => copied(call),
        40 => rotated(call),
        _ => reversed(call),
    }
}
