// What is said of a refused call, of either kind.
use super::roles::role;
use names::Operation;
use outcomes::refusal::Refusal;
use std::fmt;

// The refusal with a number, which the answers have that the C interface needs; 0 is for a call that is done.
pub fn refusal_of(number: u64) -> Option<Refusal> {
    match number {
        1 => Some(Refusal::Width),
        2 => Some(Refusal::Code),
        3 => Some(Refusal::Count),
        4 => Some(Refusal::NotFixnum),
        5 => Some(Refusal::Domain),
        6 => Some(Refusal::Overflow),
        7 => Some(Refusal::Operand),
        8 => Some(Refusal::Capacity),
        9 => Some(Refusal::NotOpen),
        10 => Some(Refusal::BadRule),
        _ => None,
    }
}

// `refused 4: `, in front of a reason.
#[derive(Clone, Copy)]
pub struct Refused(pub Refusal);

impl fmt::Display for Refused {
    fn fmt<W: fmt::Write>(&self, f: &mut fmt::Formatter<W>) -> fmt::Result {
        write!(f, "refused {}: ", u64::from(self.0))
    }
}

// `24`, or `24 to 30`.
#[derive(Clone, Copy)]
pub struct Span {
    pub first: u64,
    pub last: u64,
}

impl fmt::Display for Span {
    fn fmt<W: fmt::Write>(&self, f: &mut fmt::Formatter<W>) -> fmt::Result {
        if self.last <= self.first {
            write!(f, "{}", self.first)
        } else {
            write!(f, "{} to {}", self.first, self.last)
        }
    }
}

// How many arguments an operation takes: `1 argument`, or `2 to 4 arguments`.
#[derive(Clone, Copy)]
pub struct Counts {
    pub least: u64,
    pub most: u64,
}

impl Counts {
    pub fn span(self) -> Span {
        Span {
            first: self.least,
            last: self.most,
        }
    }
}

impl fmt::Display for Counts {
    fn fmt<W: fmt::Write>(&self, f: &mut fmt::Formatter<W>) -> fmt::Result {
        let plural = if self.most == 1 { "" } else { "s" };
        write!(f, "{} argument{plural}", self.span())
    }
}

// `fxnot takes 1 argument, not 2`
#[derive(Clone, Copy)]
pub struct WrongCount {
    pub operation: Operation,
    pub counts: Counts,
    pub count: u64,
}

impl fmt::Display for WrongCount {
    fn fmt<W: fmt::Write>(&self, f: &mut fmt::Formatter<W>) -> fmt::Result {
        let name = self.operation.name();
        write!(f, "{name} takes {}, not {}", self.counts, self.count)
    }
}

// An argument of a fixnum operation, by its place from 1: `argument 2, the start,`, or `argument 1` of one without a role.
#[derive(Clone, Copy)]
pub struct Argument {
    pub code: u64,
    pub place: u64,
}

impl fmt::Display for Argument {
    fn fmt<W: fmt::Write>(&self, f: &mut fmt::Formatter<W>) -> fmt::Result {
        let place = self.place;
        match role(self.code, place) {
            Some(role) => write!(f, "argument {place}, {role},"),
            None => write!(f, "argument {place}"),
        }
    }
}

// An argument, by its place from 1 to 4.
pub fn argument_at(place: u64, args: [i64; 4]) -> i64 {
    match place {
        1 => args[0],
        2 => args[1],
        3 => args[2],
        _ => args[3],
    }
}
