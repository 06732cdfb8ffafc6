// The operation of a code, on the arguments of a call that no stage has refused.
ghost use Rattle.std.specs.Prelude.{◌≡◌, ◌≤◌};
ghost use Rattle.fxtable.specs.Calls.{answer, counted, outcome};

use fxarith::arithmetic::arithmetic;
use fxarith::carry::carry;
use fxarith::compare::{compare, extreme, predicate};
use fxarith::division::divide;
use fxbits::bit::bit;
use fxbits::counts::counts;
use fxbits::fields::fields;
use fxbits::logical::logical;
use fxbits::shifts::shift;
use fxtable::answer::Answer;
use fxtable::call::Call;

// By halves, so that few comparisons find a code. The `match` over codes is within the families.
#[inline(always)]
pub fn operate(call: Call) -> Answer
    requires { (1 ≤ call.code) × (call.code ≤ 41) }
    ensures { result ≡ answer (outcome call.width call.code (counted call.args call.count)) }
{
    if call.code <= 15 {
        if call.code <= 10 {
            if call.code <= 5 {
                compare(call)
            } else {
                predicate(call)
            }
        } else if call.code <= 12 {
            extreme(call)
        } else {
            arithmetic(call)
        }
    } else if call.code <= 29 {
        if call.code <= 24 {
            if call.code <= 21 {
                divide(call)
            } else {
                carry(call)
            }
        } else {
            logical(call)
        }
    } else if call.code <= 34 {
        if call.code <= 32 {
            counts(call)
        } else {
            bit(call)
        }
    } else if 37 <= call.code && call.code <= 39 {
        shift(call)
    } else {
        fields(call)
    }
}
