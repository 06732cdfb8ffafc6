// Codes 1 to 12: comparisons of arguments with the next, predicates of one argument, the largest and the smallest.
ghost use Rattle.std.specs.Prelude.{◌≡◌, ◌≤◌};
ghost use Rattle.fxtable.specs.Calls.{answer, counted, outcome};

use super::chain::chain;
use fxstages::fold::fold_all;
use fxtable::answer::{Answer, done, question};
use fxtable::call::Call;
use words::sign::absolute;

// fx=? fx>? fx<? fx>=? fx<=?
#[tactic(auto, using(crate::proofs::CountLaws::four_at_most))]
#[inline(always)]
pub fn compare(call: Call) -> Answer
    requires { (1 ≤ call.code) × (call.code ≤ 5) }
    ensures { result ≡ answer (outcome call.width call.code (counted call.args call.count)) }
{
    let args = call.slots();
    match call.code {
        1 => question(chain(|x, y| x == y, args, call.count)),
        2 => question(chain(|x, y| x > y, args, call.count)),
        3 => question(chain(|x, y| x < y, args, call.count)),
        4 => question(chain(|x, y| x >= y, args, call.count)),
        _ => question(chain(|x, y| x <= y, args, call.count)),
    }
}

// fxzero? fxpositive? fxnegative? fxodd? fxeven?
#[inline(always)]
pub fn predicate(call: Call) -> Answer
    requires { (6 ≤ call.code) × (call.code ≤ 10) }
    ensures { result ≡ answer (outcome call.width call.code (counted call.args call.count)) }
{
    let x = call.args[0];
    let n = absolute(x);
    match call.code {
        6 => question(n == 0),
        7 => question(x > 0),
        8 => question(x < 0),
        9 => question(n % 2 == 1),
        _ => question(n % 2 != 1),
    }
}

// fxmax fxmin
#[tactic(auto, using(crate::proofs::CountLaws::four_at_most))]
#[inline(always)]
pub fn extreme(call: Call) -> Answer
    requires { (11 ≤ call.code) × (call.code ≤ 12) }
    ensures { result ≡ answer (outcome call.width call.code (counted call.args call.count)) }
{
    let x = call.args[0];
    let args = call.slots();
    if call.code == 11 {
        done(fold_all(|x, y| x.max(y), x, args, call.count), 0)
    } else {
        done(fold_all(|x, y| x.min(y), x, args, call.count), 0)
    }
}
