// Codes 33 and 34: fxbit-set?, fxcopy-bit. The position is argument 1, and the new bit argument 2.
ghost use Rattle.std.specs.Prelude.{◌≤◌, ◌≡◌};
ghost use Rattle.fxtable.specs.Calls.{answer, counted, outcome};

use fxtable::answer::{Answer, done, question};
use fxtable::call::Call;
use words::field;
use words::sign::absolute;

// A bit copied to position width - 1 is the sign.
#[inline(always)]
pub fn bit(call: Call) -> Answer
    requires { (33 ≤ call.code) × (call.code ≤ 34) }
    ensures { result ≡ answer (outcome call.width call.code (counted call.args call.count)) }
{
    let x = call.args[0];
    let k = absolute(call.args[1]);
    if call.code == 33 {
        return question(field::bit_set(x, k));
    }
    let bit = absolute(call.args[2]);
    if k < call.width - 1 {
        done(field::copy_bit_field(x, k, k + 1, bit), 0)
    } else {
        done(field::extend(bit == 1, x, k), 0)
    }
}
