// Codes 30 to 32: bit-count, length, first-bit-set.
ghost use Rattle.std.specs.Prelude.{◌≡◌, ◌≤◌};
ghost use Rattle.fxtable.specs.Calls.{answer, counted, outcome};

use fxtable::answer::{Answer, done};
use fxtable::call::Call;
use words::count::{bit_count, first_bit_set, length};

#[inline(always)]
pub fn counts(call: Call) -> Answer
    requires { (30 ≤ call.code) × (call.code ≤ 32) }
    ensures { result ≡ answer (outcome call.width call.code (counted call.args call.count)) }
{
    let x = call.args[0];
    match call.code {
        30 => done(bit_count(x), 0),
        31 => done(length(x), 0),
        _ => done(first_bit_set(x), 0),
    }
}
