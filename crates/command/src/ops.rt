// `ops`: the table of operations.
use super::counts::counts;
use fxtable::table::CODES;
use line::Line;
use line::trouble::{Expected, Status, Trouble};
use names::{Bitwise, FlonumOperation, Operation};
use output::buffer::Output;
use std::fmt;

// The row of an operation: its code, if it has one, its name, how many arguments it takes, and which.
#[derive(Clone, Copy)]
struct Row(Operation);

impl fmt::Display for Row {
    fn fmt<W: fmt::Write>(&self, f: &mut fmt::Formatter<W>) -> fmt::Result {
        let operation = self.0;
        match operation {
            Operation::Fixnum(code) => write!(f, "{code:>2}  ")?,
            _ => write!(f, "    ")?,
        }
        let name = operation.name();
        let span = counts(operation).span();
        writeln!(f, "{name:<34}{span}: {}", operation.arguments())
    }
}

fn print_all(out: &mut Output) {
    out.put(b"operations of ql fx and ql widths: code, name, how many arguments, and which\n");
    for code in 1..=CODES {
        out.print(Row(Operation::Fixnum(code)));
    }
    out.put(b"operations of ql bitwise\n");
    for operation in Bitwise::ALL {
        out.print(Row(Operation::Bitwise(operation)));
    }
    out.put(b"operations of ql fl\n");
    for operation in FlonumOperation::ALL {
        out.print(Row(Operation::Flonum(operation)));
    }
}

// The row of one operation, or all.
pub fn reply_ops(line: Line, out: &mut Output) -> Result<Status, Trouble> {
    match line.count() {
        0 | 1 => print_all(out),
        2 => {
            let operation = line.word(2).and_then(Operation::named).ok_or(Trouble {
                word: 2,
                expected: Expected::Topic,
            })?;
            out.print(Row(operation));
        }
        _ => {
            return Err(Trouble {
                word: 3,
                expected: Expected::End,
            });
        }
    }
    Ok(Status::Done)
}
