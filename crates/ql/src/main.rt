// The command `ql`: what the words of the command line ask is answered on standard output, or on standard error where a word cannot be
// read, by one write.
#![tactic(auto)]

ghost use Rattle.std.specs.Prelude.{◌≤◌, length, IfSome};

use batch::run_batch;
use command::{Task, reply_words, task_of};
use foldfiles::run_fold;
use line::Line;
use line::trouble::Status;
use output::buffer::Output;
use rulefiles::run_rule;
use std::env::FillError;
use std::process::ExitCode;
use std::rt::{Env, Files};
use streams::Console;

// Puts all words of the command line into a buffer, a byte 0 behind each, and answers how many bytes they are, unless they fill the buffer.
fn take_words(rt: &impl Env, buffer: &mut [u8]) -> Option<usize>
    ensures { IfSome result (λ n. n ≤ length buffer.new) }
{
    let mut at = 0;
    for i in 1..usize::MAX {
        match rt.arg(i, &mut buffer[at..]) {
            Ok(length) => {
                let end = at + length + 1;
                if buffer.len() <= end {
                    return None;
                }
                buffer[end - 1] = 0;
                at = end;
            }
            Err(FillError::TooLong) => return None,
            Err(FillError::NotPresent) => break,
        }
    }
    Some(at)
}

// Answers the words that fill the first n bytes of a buffer, and gives their status. `batch` reads its input into that buffer.
fn answer_words<R: Files + Input + Print, E: Print>(
    console: &Console<R, E>,
    words: &mut [u8],
    n: usize,
    answer: &mut [u8],
) -> Status
    requires { n ≤ length words.old }
{
    match task_of(Line::new(&words[..n])) {
        Task::Batch => run_batch(console, words, answer),
        Task::Fold => run_fold(console, Line::new(&words[..n]), &mut Output::new(answer)),
        Task::RuleFile => run_rule(console, Line::new(&words[..n]), &mut Output::new(answer)),
        Task::Words => {
            let mut out = Output::new(answer);
            let status = reply_words(Line::new(&words[..n]), &mut out);
            console.write_reply(status, out.text())
        }
    }
}

// The command.
pub fn ql_command<R: Env + Files + Input + Print>(rt: &R, errors: &impl Print) -> Status {
    let console = Console { rt, errors };
    let mut words = output::large_buffer();
    let mut answer = output::large_buffer();
    match take_words(rt, &mut words) {
        Some(n) => answer_words(&console, &mut words, n, &mut answer),
        None => {
            console.report("ql: the words have more than 65535 bytes together\n");
            Status::Trouble
        }
    }
}

fn main(rt: HostRuntime) -> ExitCode {
    ExitCode::from(u8::from(ql_command(&rt, &rt.stderr())))
}
