// Why an opening or a piece is refused, in words.
use super::settings::{ROTATE, Settings};
use fold::Refused;
use fxcalls::domains::broken_rule;
use fxcalls::explain::{Range, width_limit};
use line::refusal;
use line::roles::role;
use outcomes::refusal::Refusal;
use std::fmt;

// The reason of a refused opening: `the start is -1: it must be from 0 to width - 1`. It holds for every width with the same answer.
#[derive(Clone, Copy)]
pub struct Reason {
    pub settings: Settings,
    pub width: u64,
    pub refused: Refused,
}

impl fmt::Display for Reason {
    fn fmt<W: fmt::Write>(&self, f: &mut fmt::Formatter<W>) -> fmt::Result {
        let Refused { refusal, place } = self.refused;
        let Some(place) = place else {
            return write!(f, "{}", width_limit(self.width));
        };
        let part = role(ROTATE, place).unwrap_or("the accumulator");
        let value = self.settings.at(place);
        let rule = broken_rule(ROTATE, refusal, place);
        write!(f, "{part} is {value}: it {rule}")
    }
}

// The end of a refused line: the fixnums of the width where the reason is about them.
#[derive(Clone, Copy)]
struct Ending {
    width: u64,
    refusal: Refusal,
}

impl fmt::Display for Ending {
    fn fmt<W: fmt::Write>(&self, f: &mut fmt::Formatter<W>) -> fmt::Result {
        if self.refusal == Refusal::NotFixnum {
            write!(f, "{}", Range(self.width))
        } else {
            Ok(())
        }
    }
}

// The line of an opening that is refused at a width.
#[derive(Clone, Copy)]
pub struct RefusedOpening(pub Reason);

impl fmt::Display for RefusedOpening {
    fn fmt<W: fmt::Write>(&self, f: &mut fmt::Formatter<W>) -> fmt::Result {
        let reason = self.0;
        let width = reason.width;
        let refusal = reason.refused.refusal;
        let head = refusal::Refused(refusal);
        writeln!(f, "{head}{reason}{}", Ending { width, refusal })
    }
}

// The line of a piece that is no fixnum.
#[derive(Clone, Copy)]
pub struct RefusedPiece {
    pub width: u64,
    pub refusal: Refusal,
    pub piece: i64,
}

impl fmt::Display for RefusedPiece {
    fn fmt<W: fmt::Write>(&self, f: &mut fmt::Formatter<W>) -> fmt::Result {
        let RefusedPiece {
            width,
            refusal,
            piece,
        } = *self;
        let head = refusal::Refused(refusal);
        let rule = broken_rule(ROTATE, refusal, 1);
        let ending = Ending { width, refusal };
        writeln!(f, "{head}the piece is {piece}: it {rule}{ending}")
    }
}
