// Why a bitwise call is refused, in words. Its answer has no place: the argument is found here.
use super::rules::Rule;
use limbstages::check::{LAST_BIT, LAST_END};
use line::refusal::{Argument, Refused, argument_at};
use names::Bitwise;
use outcomes::refusal::Refusal;
use std::fmt;

// Of start, end and count the first that is outside its domain, by its place. The end is tested against the start.
fn place_in_field(start: i64, end: i64) -> u64 {
    if !(0..=LAST_END).contains(&start) {
        2
    } else if !(start..=LAST_END).contains(&end) {
        3
    } else {
        4
    }
}

// A refused call: its operation, and its numbers, each at its place among the arguments.
#[derive(Clone, Copy)]
pub struct RefusedCall {
    pub operation: Bitwise,
    pub numbers: [i64; 4],
    pub refusal: Refusal,
}

impl RefusedCall {
    // The place of the argument that the call is refused for, where it is outside its domain.
    fn place(self) -> u64 {
        let [_, first, second, _] = self.numbers;
        match self.operation {
            Bitwise::CopyBit if (0..=LAST_BIT).contains(&first) => 3,
            Bitwise::BitField
            | Bitwise::CopyBitField
            | Bitwise::RotateBitField
            | Bitwise::ReverseBitField => place_in_field(first, second),
            _ => 2,
        }
    }
}

// The line of a refused call, as `refused 5: argument 3, the end, is 4: it must be from start to 32767`.
impl fmt::Display for RefusedCall {
    fn fmt<W: fmt::Write>(&self, f: &mut fmt::Formatter<W>) -> fmt::Result {
        let operation = self.operation;
        write!(f, "{}", Refused(self.refusal))?;
        match self.refusal {
            Refusal::Domain => {
                let place = self.place();
                let code = operation.code();
                let argument = Argument { code, place };
                let value = argument_at(place, self.numbers);
                writeln!(f, "{argument} is {value}: it {}", Rule { operation, place })
            }
            Refusal::Overflow => {
                writeln!(
                    f,
                    "the exact result must have at most 1024 limbs of 32 bits"
                )
            }
            Refusal::Operand => writeln!(f, "an operand must have at most 1024 limbs of 32 bits"),
            _ => writeln!(f, "the result must fit its buffer"),
        }
    }
}
