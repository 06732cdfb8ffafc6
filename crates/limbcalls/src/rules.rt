// What each bitwise operation takes.
ghost use Rattle.std.specs.Prelude.{◌≤◌};

use fxtable::domains::Domain;
use limbstages::check::{LAST_BIT, LAST_END};
use line::refusal::{Argument, Counts};
use line::roles::domain_of;
use names::Bitwise;
use std::fmt;

// How many arguments an operation takes.
pub fn arity(operation: Bitwise) -> usize
    ensures { result ≤ 4 }
{
    match operation {
        Bitwise::Not | Bitwise::BitCount | Bitwise::Length | Bitwise::FirstBitSet => 1,
        Bitwise::And | Bitwise::Ior | Bitwise::Xor | Bitwise::BitSet => 2,
        Bitwise::ArithmeticShift | Bitwise::ArithmeticShiftLeft | Bitwise::ArithmeticShiftRight =>
            2,
        Bitwise::If | Bitwise::CopyBit | Bitwise::BitField | Bitwise::ReverseBitField => 3,
        Bitwise::CopyBitField | Bitwise::RotateBitField => 4,
    }
}

pub fn counts(operation: Bitwise) -> Counts {
    let n = arity(operation) as u64;
    Counts { least: n, most: n }
}

// How many of the arguments are numbers and not operands. They follow the first operand.
pub fn numbers_of(operation: Bitwise) -> usize
    ensures { result ≤ 3 }
{
    match operation {
        Bitwise::BitSet => 1,
        Bitwise::ArithmeticShift | Bitwise::ArithmeticShiftLeft | Bitwise::ArithmeticShiftRight =>
            1,
        Bitwise::CopyBit | Bitwise::BitField | Bitwise::CopyBitField | Bitwise::ReverseBitField =>
            2,
        Bitwise::RotateBitField => 3,
        _ => 0,
    }
}

// The rule of a number, by its place among the arguments: `must be from start to 32767`.
#[derive(Clone, Copy)]
pub struct Rule {
    pub operation: Bitwise,
    pub place: u64,
}

impl Rule {
    fn domain(self) -> Domain {
        domain_of(self.operation.code(), self.place)
    }
}

impl fmt::Display for Rule {
    fn fmt<W: fmt::Write>(&self, f: &mut fmt::Formatter<W>) -> fmt::Result {
        match (self.domain(), self.operation) {
            (Domain::Position, Bitwise::BitSet) => write!(f, "must be at least 0"),
            (Domain::Position, Bitwise::CopyBit) => write!(f, "must be from 0 to {LAST_BIT}"),
            (Domain::Position, _) => write!(f, "must be from 0 to {LAST_END}"),
            (Domain::FieldEnd, _) => write!(f, "must be from start to {LAST_END}"),
            (Domain::NewBit, _) => write!(f, "must be 0 or 1"),
            _ => write!(f, "must be at least 0"),
        }
    }
}

// The domains of an operation's numbers: `argument 2, the position, must be at least 0`, each on a line of its own. An operand has none, nor
// has a signed distance, which may be any number.
#[derive(Clone, Copy)]
pub struct BitwiseDomains(pub Bitwise);

impl fmt::Display for BitwiseDomains {
    fn fmt<W: fmt::Write>(&self, f: &mut fmt::Formatter<W>) -> fmt::Result {
        let operation = self.0;
        let code = operation.code();
        for place in 2..=4 {
            let rule = Rule { operation, place };
            if !matches!(rule.domain(), Domain::Fixnum | Domain::SignedDistance) {
                writeln!(f, "{} {rule}", Argument { code, place })?;
            }
        }
        Ok(())
    }
}
