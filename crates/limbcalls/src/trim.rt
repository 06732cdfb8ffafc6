// `trim`: the shortest limbs of the integer that limbs are, which may be padded.
use super::bitwise::{OPERAND, RESULT, print_limbs};
use line::Line;
use line::refusal::Refused;
use line::trouble::{Status, Trouble};
use output::buffer::Output;
use std::fmt;

// The words past the first as limbs, in a buffer: all, or, where there are too many, one more than a call takes.
fn read_limbs<'a>(line: Line, space: &'a mut [u32]) -> Result<&'a [u32], Trouble> {
    for i in 2..=line.count() {
        let limb = line.limb(i)?;
        if let Some(kept) = space.get_mut(i - 2) {
            *kept = limb;
        }
    }
    let given = line.count_past(1).min(space.len());
    Ok(&space[..given])
}

// `limbs 0x80000000 0x0`: a name, and limbs as they are.
#[derive(Clone, Copy)]
struct Row<'a> {
    name: &'static str,
    limbs: &'a [u32],
}

impl<'a> fmt::Display for Row<'a> {
    fn fmt<W: fmt::Write>(&self, f: &mut fmt::Formatter<W>) -> fmt::Result {
        write!(f, "{}", self.name)?;
        for limb in self.limbs {
            write!(f, " {limb:#x}")?;
        }
        writeln!(f)
    }
}

// The limbs that were given, the shortest, and their integer. The number of limbs is all that a call is refused for: its buffer has room
// for every result.
pub fn reply_trim(line: Line, out: &mut Output) -> Result<Status, Trouble> {
    let mut given = [0; OPERAND];
    let limbs = read_limbs(line, &mut given)?;
    let mut space = [0; RESULT];
    match limbs::bitwise_trim(limbs, &mut space, 0) {
        Ok(n) => {
            let shortest = &mut space[..n];
            out.print(Row {
                name: "limbs",
                limbs,
            });
            out.print(Row {
                name: "shortest",
                limbs: shortest,
            });
            out.put(b"integer ");
            print_limbs(shortest, out);
            out.put(b"\n");
            Ok(Status::Done)
        }
        Err(refusal) => {
            let head = Refused(refusal);
            let count = line.count_past(1);
            out.print(format_args!("{head}an operand must have 1 to 1024 limbs, not {count}\n"));
            Ok(Status::Refused)
        }
    }
}
