// `help`: what the command and each operation do.
use super::counts::counts;
use flcalls::reply_fl;
use fxcalls::domains::Domains;
use fxcalls::fx::reply_fx;
use limbcalls::bitwise::reply_bitwise;
use limbcalls::rules::BitwiseDomains;
use line::Line;
use line::trouble::{Expected, Status, Trouble};
use manual::{USAGE, command_help, entry_of};
use names::{Command, Operation};
use output::buffer::Output;
use std::fmt;

// An operation with its arguments, its meaning, and what it takes.
#[derive(Clone, Copy)]
struct Help(Operation);

impl fmt::Display for Help {
    fn fmt<W: fmt::Write>(&self, f: &mut fmt::Formatter<W>) -> fmt::Result {
        let operation = self.0;
        let meaning = entry_of(operation).meaning;
        writeln!(f, "{} {}", operation.name(), operation.arguments())?;
        writeln!(f, "{meaning}")?;
        let counts = counts(operation);
        match operation {
            Operation::Fixnum(code) => writeln!(f, "code {code}, {counts}")?,
            _ => writeln!(f, "{counts}")?,
        }
        match operation {
            Operation::Fixnum(code) => write!(f, "{}", Domains(code)),
            Operation::Bitwise(operation) => write!(f, "{}", BitwiseDomains(operation)),
            Operation::Flonum(_) => Ok(()),
        }
    }
}

// An example, without the ql: `fx 24 fxand 12 10`.
#[derive(Clone, Copy)]
struct Example(Operation);

impl fmt::Display for Example {
    fn fmt<W: fmt::Write>(&self, f: &mut fmt::Formatter<W>) -> fmt::Result {
        let operation = self.0;
        let command = match operation {
            Operation::Fixnum(_) => "fx 24",
            Operation::Bitwise(_) => "bitwise",
            Operation::Flonum(_) => "fl",
        };
        let sample = entry_of(operation).sample;
        write!(f, "{command} {} {sample}", operation.name())
    }
}

// An example and what the command answers to it.
fn print_example(operation: Operation, out: &mut Output) -> Result<Status, Trouble> {
    let example = Example(operation);
    let mut text = [0u8; 128];
    let mut written = Output::new(&mut text);
    written.print(example);
    let mut words = [0u8; 128];
    let line = Line::split(written.text(), &mut words);
    out.print(format_args!("  $ ql {example}\n  "));
    match operation {
        Operation::Fixnum(_) => reply_fx(line, ", ", out),
        Operation::Bitwise(_) => reply_bitwise(line, out),
        Operation::Flonum(_) => reply_fl(line, ", ", out),
    }
}

// What the command or the operation does that a word names.
pub fn reply_about(line: Line, i: usize, out: &mut Output) -> Result<Status, Trouble> {
    let word = line.word(i).unwrap_or(b"");
    if let Some(command) = Command::named(word) {
        out.put(command_help(command).as_bytes());
        return Ok(Status::Done);
    }
    let operation = Operation::named(word).ok_or(Trouble {
        word: i,
        expected: Expected::Topic,
    })?;
    out.print(Help(operation));
    print_example(operation, out)?;
    Ok(Status::Done)
}

pub fn print_usage(out: &mut Output) {
    out.put(USAGE.as_bytes());
}

pub fn reply_help(line: Line, out: &mut Output) -> Result<Status, Trouble> {
    match line.count() {
        0 | 1 => {
            print_usage(out);
            Ok(Status::Done)
        }
        2 => reply_about(line, 2, out),
        _ => Err(Trouble {
            word: 3,
            expected: Expected::End,
        }),
    }
}
