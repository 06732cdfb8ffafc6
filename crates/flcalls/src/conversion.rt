// `fl fixnum->flonum`.
use super::answer::put_value;
use super::number::ends_before;
use flonum::answer::Answer;
use flonum::fixnum_to_flonum;
use fxcalls::explain::{Range, width_limit};
use line::Line;
use line::refusal::{Refused, refusal_of};
use line::trouble::{Expected, Status, Trouble};
use outcomes::refusal::Refusal;
use output::buffer::Output;
use std::fmt;

// The line of a refused conversion: for its width, or for its number.
#[derive(Clone, Copy)]
struct RefusedConversion {
    refusal: Refusal,
    width: u64,
    n: i64,
}

impl fmt::Display for RefusedConversion {
    fn fmt<W: fmt::Write>(&self, f: &mut fmt::Formatter<W>) -> fmt::Result {
        let RefusedConversion { refusal, width, n } = *self;
        let head = Refused(refusal);
        match refusal {
            Refusal::Width => writeln!(f, "{head}{}", width_limit(width)),
            _ => writeln!(
                f,
                "{head}argument 1 is {n}: it must be a fixnum{}",
                Range(width)
            ),
        }
    }
}

// A flonum is no integer, though it is a number.
fn integer(trouble: Trouble) -> Trouble {
    match trouble.expected {
        Expected::Number => Trouble {
            expected: Expected::Integer,
            ..trouble
        },
        _ => trouble,
    }
}

pub fn reply_conversion(line: Line, out: &mut Output) -> Result<Status, Trouble> {
    let width = line.width(3)?;
    let n = line.number(4).map_err(integer)?;
    ends_before(line, 5)?;
    let answer = fixnum_to_flonum(width, n);
    if let Answer::Refused(number) = answer {
        if let Some(refusal) = refusal_of(number) {
            out.print(RefusedConversion { refusal, width, n });
        }
        return Ok(Status::Refused);
    }
    put_value(answer, out);
    Ok(Status::Done)
}
