// Codes 25 to 29: not, and, ior, xor, if.
ghost use Rattle.std.specs.Prelude.{◌≡◌, ◌≤◌};
ghost use Rattle.fxtable.specs.Calls.{answer, counted, outcome};

use fxstages::fold::fold_all;
use fxtable::answer::{Answer, done};
use fxtable::call::Call;
use words::logical::{and, ior, xor};

// fxnot
pub fn not(call: Call) -> Answer
    requires { call.code ≡ 25 }
    ensures { result ≡ answer (outcome call.width call.code (counted call.args call.count)) }
{
    let x = call.args[0];
    done(!x, 0)
}

// fxif: bit i of the second argument where that of the first is 1, and of the third where it is 0.
pub fn choose(call: Call) -> Answer
    requires { call.code ≡ 29 }
    ensures { result ≡ answer (outcome call.width call.code (counted call.args call.count)) }
{
    let x = call.args[0];
    let y = call.args[1];
    let z = call.args[2];
    done(ior(and(x, y), and(!x, z)), 0)
}

// fxand fxior fxxor
#[inline(always)]
pub fn combined(call: Call) -> Answer
    requires { (26 ≤ call.code) × (call.code ≤ 28) }
    ensures { result ≡ answer (outcome call.width call.code (counted call.args call.count)) }
{
    let args = call.slots();
    match call.code {
        26 => done(fold_all(and, !0, args, call.count), 0),
        27 => done(fold_all(ior, 0, args, call.count), 0),
        _ => done(fold_all(xor, 0, args, call.count), 0),
    }
}

#[inline(always)]
pub fn logical(call: Call) -> Answer
    requires { (25 ≤ call.code) × (call.code ≤ 29) }
    ensures { result ≡ answer (outcome call.width call.code (counted call.args call.count)) }
{
    match call.code {
        25 => not(call),
        29 => choose(call),
        _ => combined(call),
    }
}
