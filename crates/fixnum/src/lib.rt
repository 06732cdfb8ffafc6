// The R6RS fixnum operations at any width from 24 to 64, by code.
#![tactic(auto)]

ghost use Rattle.std.specs.Prelude.{◌≡◌};
ghost use Rattle.fxtable.specs.Calls.{fixnum_answer};

pub mod accepted;
mod dispatch;

use dispatch::operate;
use fxstages::domains::first_outside;
use fxstages::fixnums::first_not_fixnum;
use fxtable::answer::{Answer, refuse};
use fxtable::call::Call;
use fxtable::table::{is_code, is_count};
use fxtable::width::is_width;
use outcomes::refusal::Refusal;

// The answer of the operation with a code, at a width, to the first `count` elements of `args`. Refusals in this order: 1 for the
// width, 2 for the code, 3 for the count, 4 for an argument that is no fixnum, 5 for one outside its domain, 6 for a result
// that is no fixnum (5 for fx-). The place, with 4 and 5, is that of the first such argument, counted from 1; else it is 0.
pub fn call(width: u64, code: u64, args: [i64; 4], count: u64) -> Answer
    ensures { result ≡ fixnum_answer width code args count }
{
    if !is_width(width) {
        return refuse(Refusal::Width, 0);
    }
    if !is_code(code) {
        return refuse(Refusal::Code, 0);
    }
    if !is_count(code, count) {
        return refuse(Refusal::Count, 0);
    }
    let place = first_not_fixnum(width, args, count);
    if place != 0 {
        return refuse(Refusal::NotFixnum, place);
    }
    let place = first_outside(width, code, args, count);
    if place != 0 {
        return refuse(Refusal::Domain, place);
    }
    operate(Call {
        width,
        code,
        args,
        count,
    })
}
