// Codes 16 to 21: div, mod, div-and-mod, div0, mod0, div0-and-mod0.
ghost use Rattle.std.specs.Prelude.{◌≡◌, ◌≤◌};
ghost use Rattle.fxtable.specs.Calls.{answer, counted, outcome};

use fxstages::overflow::checked;
use fxtable::answer::{Answer, done};
use fxtable::call::Call;
use outcomes::refusal::Refusal;
use widewords::division;
use words::sign::from_absolute;

#[inline(always)]
pub fn divide(call: Call) -> Answer
    requires { (16 ≤ call.code) × (call.code ≤ 21) }
    ensures { result ≡ answer (outcome call.width call.code (counted call.args call.count)) }
{
    let x = call.args[0];
    let y = call.args[1];
    let q = division::divide(19 <= call.code, x, y);
    let m = from_absolute(q.remainder_negative, q.remainder);
    match call.code {
        16 | 19 => checked(Refusal::Overflow, call.width, q.negative, q.absolute, 0),
        17 | 20 => done(m, 0),
        _ => checked(Refusal::Overflow, call.width, q.negative, q.absolute, m),
    }
}
