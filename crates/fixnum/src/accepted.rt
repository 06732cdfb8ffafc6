// A call whose width, code, count and arguments have been checked, of an operation with one result: for the evaluator of rules, which has
// checked them all before. It goes to the same operations as `call`, each of which the compiler builds into both.
ghost use Rattle.std.specs.Prelude.{◌≡◌, false};
ghost use Rattle.fxtable.specs.Calls.{fixnum_answer};
ghost use Rattle.fxtable.specs.Inner.{Checked};
ghost use Rattle.fxtable.specs.Operations.{has_two};
ghost use Rattle.fxtable.specs.Table.{row_of};

use super::dispatch::operate;
use fxstages::domains::first_outside;
use fxtable::answer::{Answer, refuse};
use fxtable::call::Call;
use outcomes::refusal::Refusal;

// The answer of `call`, where it is not refused 1 to 4 and has one result.
pub fn call_checked(width: u64, code: u64, args: [i64; 4], count: u64) -> Answer
    requires checked { Checked width code args count }
    requires code_value { has_two (row_of code).results ≡ false }
    ensures { result ≡ fixnum_answer width code args count }
{
    let place = first_outside(width, code, args, count);
    if place != 0 {
        return refuse(Refusal::Domain, place);
    }
    operate(Call {
        width,
        code,
        args,
        count,
    })
}
