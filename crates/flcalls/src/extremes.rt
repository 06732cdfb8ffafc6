// `fl flextremes`.
use super::answer::put_flonum;
use super::counts::counts;
use super::number::flonums;
use flonum::extremes::{Extremes, flextremes};
use line::Line;
use line::refusal::{Refused, WrongCount, refusal_of};
use line::trouble::{Status, Trouble};
use names::{FlonumOperation, Operation};
use output::buffer::Output;

// The number of flonums is all that a call is refused for.
fn wrong_count(count: u64) -> WrongCount {
    WrongCount {
        operation: Operation::Flonum(FlonumOperation::Extremes),
        counts: counts(FlonumOperation::Extremes),
        count,
    }
}

pub fn reply_extremes(line: Line, between: &str, out: &mut Output) -> Result<Status, Trouble> {
    let args = flonums(line, 2)?;
    let count = line.count_past(2) as u64;
    let answer = flextremes(args, count);
    if let Some(refusal) = refusal_of(answer.refusal) {
        out.print(format_args!("{}{}\n", Refused(refusal), wrong_count(count)));
        return Ok(Status::Refused);
    }
    let Extremes { smallest, largest } = answer.values;
    put_flonum(smallest, out);
    out.print(between);
    put_flonum(largest, out);
    out.put(b"\n");
    Ok(Status::Done)
}
