// What the command `ql` answers to a line of words, as text and an exit status.
#![tactic(auto)]

mod about;
mod counts;
mod ops;

use about::{print_usage, reply_about, reply_help};
use flcalls::reply_fl;
use foldcalls::join::reply_join;
use fxcalls::fx::reply_fx;
use fxcalls::list::reply_list;
use fxcalls::widths::reply_widths;
use limbcalls::bitwise::reply_bitwise;
use limbcalls::trim::reply_trim;
use line::Line;
use line::trouble::{Expected, Status, Trouble};
use names::Command;
use ops::reply_ops;
use output::buffer::Output;
use rulecalls::asked::BEFORE;
use rulecalls::reply::reply_rule;

// What a line asks for: an answer in words, or input to be read.
#[derive(Clone, Copy, Debug, PartialEq, Eq)]
pub enum Task {
    Words,
    Batch,
    Fold,
    RuleFile,
}

fn asks_help(line: Line, i: usize) -> bool {
    line.is_word(i, b"--help") || line.is_word(i, b"-h")
}

// `fold`, or `widths fold`.
fn is_fold(line: Line) -> bool {
    line.is_word(1, b"fold") || line.is_word(1, b"widths") && line.is_word(2, b"fold")
}

// `rule`, with the name of a file.
fn is_rule_file(line: Line) -> bool {
    let form = line.word(BEFORE).unwrap_or(b"");
    line.is_word(1, b"rule") && form.starts_with(b"@")
}

pub fn task_of(line: Line) -> Task {
    let n = line.count();
    if asks_help(line, n) {
        Task::Words
    } else if is_fold(line) {
        Task::Fold
    } else if is_rule_file(line) {
        Task::RuleFile
    } else if n == 1 && line.is_word(1, b"batch") {
        Task::Batch
    } else {
        Task::Words
    }
}

// `fold` always reads input and does not come here; `batch` comes with a word too many.
fn reply_command(line: Line, out: &mut Output) -> Result<Status, Trouble> {
    match line.word(1).and_then(Command::named) {
        Some(Command::Fx) => reply_fx(line, "\n", out),
        Some(Command::Widths) => reply_widths(line, out),
        Some(Command::Bitwise) => reply_bitwise(line, out),
        Some(Command::Trim) => reply_trim(line, out),
        Some(Command::Fl) => reply_fl(line, "\n", out),
        Some(Command::List) => reply_list(line, out),
        Some(Command::Join) => reply_join(line, out),
        Some(Command::Rule) => reply_rule(line, out),
        Some(Command::Ops) => reply_ops(line, out),
        Some(Command::Help) => reply_help(line, out),
        Some(Command::Batch) => Err(Trouble {
            word: 2,
            expected: Expected::End,
        }),
        None if line.is_word(1, b"--version") => {
            out.put(b"ql (quebralua) 0.2\n");
            Ok(Status::Done)
        }
        Some(Command::Fold) | None => Err(Trouble {
            word: 1,
            expected: Expected::Command,
        }),
    }
}

// A line that ends in a wish for help.
fn reply_asking(line: Line, out: &mut Output) -> Result<Status, Trouble> {
    let before = line.count_past(1);
    if before == 0 {
        print_usage(out);
        Ok(Status::Done)
    } else if line.is_word(1, b"rule") {
        reply_about(line, 1, out)
    } else {
        reply_about(line, before, out)
    }
}

// What the words of the command line are answered where no input is read.
pub fn reply_words(line: Line, out: &mut Output) -> Status {
    let n = line.count();
    if n == 0 {
        print_usage(out);
        return Status::Trouble;
    }
    let reply = if asks_help(line, n) {
        reply_asking(line, out)
    } else {
        reply_command(line, out)
    };
    line.conclude(reply, out)
}
