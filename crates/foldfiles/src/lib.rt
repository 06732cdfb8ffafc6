// `fold` and `widths fold`: standard input, or each of some files, folded chunk by chunk.
#![tactic(auto)]

use fold::{Fold, chunk};
use foldcalls::answer::{Behind, reply_identifier, reply_unopened};
use foldcalls::settings::Settings;
use line::Line;
use line::trouble::Status;
use output::buffer::Output;
use std::io;
use std::io::Read;
use std::rt::Files;
use streams::Console;

// All bytes of an input, into a record that is open. The buffer is lent, so that it is cleared once and not for each file.
fn fold_all<R: Read>(reader: &mut R, first: Fold, buffer: &mut [u8]) -> io::Result<Fold> {
    let mut fold = first;
    for _ in 0..u64::MAX {
        let n = reader.read(buffer)?;
        if n == 0 {
            break;
        }
        fold = chunk(fold, &buffer[..n]).unwrap_or(fold);
    }
    Ok(fold)
}

// All bytes of a file. It is closed before anything is written: where standard output is closed, the file may have its number.
fn fold_file<R: Files + Input, E>(
    console: &Console<R, E>,
    name: &[u8],
    first: Fold,
    buffer: &mut [u8],
) -> io::Result<Fold> {
    let mut file = console.open_file(name)?;
    fold_all(&mut file, first, buffer)
}

// Folds a file, and writes its answer or says why it cannot be read.
fn run_file<R: Files + Input + Print, E: Print>(
    console: &Console<R, E>,
    name: &[u8],
    settings: Settings,
    first: Fold,
    behind: Behind,
    buffer: &mut [u8],
    out: &mut Output,
) -> io::Result<Status> {
    let fold = fold_file(console, name, first, buffer).inspect_err(|error| console.report_file(
        name, *error,
    ))?;
    out.clear();
    let status = reply_identifier(settings, fold, behind, out);
    Ok(console.write_reply(status, out.text()))
}

// Each file that the line names past the first few words. The next is folded too where one cannot be read, but not where an answer cannot
// be written.
fn run_files<R: Files + Input + Print, E: Print>(
    console: &Console<R, E>,
    line: Line,
    few: usize,
    settings: Settings,
    first: Fold,
    buffer: &mut [u8],
    out: &mut Output,
) -> Status {
    let mut status = Status::Done;
    let are_many = 1 < line.count_past(few);
    for i in few..line.count() {
        let Some(name) = line.word(i + 1) else {
            break;
        };
        let behind = Behind(are_many.then_some(name));
        match run_file(console, name, settings, first, behind, buffer, out) {
            Ok(Status::Trouble) => return Status::Trouble,
            Ok(written) => status = status.max(written),
            Err(_) => status = Status::Trouble,
        }
    }
    status
}

// Answers the words of a fold, and gives the exit status. Nothing is read where a word cannot be read or opening is refused. It is not built
// into its caller, as `run_batch` is not.
#[inline(never)]
pub fn run_fold<R: Files + Input + Print, E: Print>(
    console: &Console<R, E>,
    line: Line,
    out: &mut Output,
) -> Status {
    let (settings, few) = match Settings::read(line) {
        Ok(read) => read,
        Err(trouble) => {
            console.report(trouble.about(line));
            return Status::Trouble;
        }
    };
    let first = match settings.open() {
        Ok(first) => first,
        Err(refused) => {
            let status = reply_unopened(settings, refused, out);
            return console.write_reply(status, out.text());
        }
    };
    let mut buffer = output::large_buffer();
    if line.count_past(few) == 0 {
        let behind = Behind(None);
        let answered = run_file(console, b"-", settings, first, behind, &mut buffer, out);
        answered.unwrap_or(Status::Trouble)
    } else {
        run_files(console, line, few, settings, first, &mut buffer, out)
    }
}
