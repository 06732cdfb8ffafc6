// Why a fixnum call is refused, in words.
use super::domains::{broken_rule, counts};
use super::request::{Refused, Request};
use fxtable::table::CODES;
use fxtable::width::{LARGEST_WIDTH, LEAST_WIDTH};
use line::refusal;
use line::refusal::{Argument, Span, WrongCount, argument_at};
use names::Operation;
use outcomes::refusal::Refusal;
use std::fmt;

// `the width is 65, and must be from 24 to 64`
#[derive(Clone, Copy)]
pub struct Limit {
    what: &'static str,
    value: u64,
    range: Span,
}

impl fmt::Display for Limit {
    fn fmt<W: fmt::Write>(&self, f: &mut fmt::Formatter<W>) -> fmt::Result {
        let what = self.what;
        write!(
            f,
            "the {what} is {}, and must be from {}",
            self.value, self.range
        )
    }
}

pub fn width_limit(width: u64) -> Limit {
    Limit {
        what: "width",
        value: width,
        range: Span {
            first: LEAST_WIDTH,
            last: LARGEST_WIDTH,
        },
    }
}

fn code_limit(code: u64) -> Limit {
    Limit {
        what: "code",
        value: code,
        range: Span {
            first: 1,
            last: CODES,
        },
    }
}

// `fxnot takes 1 argument, not 2`
fn wrong_count(request: Request) -> WrongCount {
    WrongCount {
        operation: Operation::Fixnum(request.code),
        counts: counts(request.code),
        count: request.count,
    }
}

// The reason of a refusal: `argument 2, the start, is -1: it must be from 0 to width - 1`. It holds for every width with the same answer.
#[derive(Clone, Copy)]
pub struct Reason {
    pub width: u64,
    pub request: Request,
    pub refused: Refused,
}

impl fmt::Display for Reason {
    fn fmt<W: fmt::Write>(&self, f: &mut fmt::Formatter<W>) -> fmt::Result {
        let Request { code, args, .. } = self.request;
        let refusal = self.refused.refusal;
        if let Some(place) = self.refused.place {
            let argument = Argument { code, place };
            let value = argument_at(place, args);
            let rule = broken_rule(code, refusal, place);
            return write!(f, "{argument} is {value}: it {rule}");
        }
        match refusal {
            Refusal::Width => write!(f, "{}", width_limit(self.width)),
            Refusal::Code => write!(f, "{}", code_limit(code)),
            Refusal::Count => write!(f, "{}", wrong_count(self.request)),
            _ => write!(f, "the exact result must be a fixnum"),
        }
    }
}

// The fixnums of a width: `, at width 24 from -8388608 to 8388607`.
#[derive(Clone, Copy)]
pub struct Range(pub u64);

impl fmt::Display for Range {
    fn fmt<W: fmt::Write>(&self, f: &mut fmt::Formatter<W>) -> fmt::Result {
        let width = self.0;
        let half = 1u64 << (width.saturating_sub(1) % 64);
        write!(
            f,
            ", at width {width} from -{half} to {}",
            half.saturating_sub(1)
        )
    }
}

// The end of a refused line: the fixnums of the width where the reason names them.
#[derive(Clone, Copy)]
pub struct Ending {
    pub width: u64,
    pub refused: Refused,
}

impl fmt::Display for Ending {
    fn fmt<W: fmt::Write>(&self, f: &mut fmt::Formatter<W>) -> fmt::Result {
        if self.refused.is_about_fixnums() {
            write!(f, "{}", Range(self.width))
        } else {
            Ok(())
        }
    }
}

impl Refused {
    // Whether an argument or, where no argument is named, the result is no fixnum.
    fn is_about_fixnums(self) -> bool {
        match self.refusal {
            Refusal::Width | Refusal::Code | Refusal::Count => false,
            Refusal::NotFixnum => true,
            _ => self.place.is_none(),
        }
    }
}

// The line of a refused call.
#[derive(Clone, Copy)]
pub struct RefusedCall {
    pub width: u64,
    pub request: Request,
    pub refused: Refused,
}

impl fmt::Display for RefusedCall {
    fn fmt<W: fmt::Write>(&self, f: &mut fmt::Formatter<W>) -> fmt::Result {
        let RefusedCall {
            width,
            request,
            refused,
        } = *self;
        let head = refusal::Refused(refused.refusal);
        let reason = Reason {
            width,
            request,
            refused,
        };
        writeln!(f, "{head}{reason}{}", Ending { width, refused })
    }
}
