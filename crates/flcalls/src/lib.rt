// `fl`: one flonum call, answered in words.
#![tactic(auto)]

mod answer;
mod conversion;
pub mod counts;
mod extremes;
mod number;

use answer::put_value;
use conversion::reply_conversion;
use extremes::reply_extremes;
use flonum::answer::Answer;
use line::Line;
use line::trouble::{Expected, Status, Trouble};
use names::FlonumOperation;
use number::{ends_before, flonum};
use output::buffer::Output;

// A call of one flonum.
fn reply_one<F: FnOnce(f64) -> Answer>(
    call: F,
    line: Line,
    out: &mut Output,
) -> Result<Status, Trouble>
    requires { F.IsAlwaysCallable call }
{
    let x = flonum(line, 3)?;
    ends_before(line, 4)?;
    put_value(call(x), out);
    Ok(Status::Done)
}

// The text between the two results of flextremes is given.
pub fn reply_fl(line: Line, between: &str, out: &mut Output) -> Result<Status, Trouble> {
    let operation = line
        .word(2)
        .and_then(FlonumOperation::named)
        .ok_or(Trouble {
            word: 2,
            expected: Expected::FlonumOperation,
        })?;
    match operation {
        FlonumOperation::FromFixnum => reply_conversion(line, out),
        FlonumOperation::Floor => reply_one(flonum::flfloor, line, out),
        FlonumOperation::Ceiling => reply_one(flonum::flceiling, line, out),
        FlonumOperation::Truncate => reply_one(flonum::fltruncate, line, out),
        FlonumOperation::Round => reply_one(flonum::flround, line, out),
        FlonumOperation::Abs => reply_one(flonum::flabs, line, out),
        FlonumOperation::Nan => reply_one(flonum::flnan, line, out),
        FlonumOperation::Finite => reply_one(flonum::flfinite, line, out),
        FlonumOperation::Extremes => reply_extremes(line, between, out),
    }
}
