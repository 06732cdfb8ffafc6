// `rule` with a rule in a file: @ and its name. The name - is standard input's.
#![tactic(auto)]

ghost use Rattle.std.specs.Prelude.{◌≤◌, length, IfOk};

use line::Line;
use line::trouble::Status;
use output::buffer::Output;
use rulecalls::asked::{Asked, BEFORE};
use rulecalls::reply::reply_bytes;
use rulereader::LONGEST;
use std::io;
use std::io::Read;
use std::rt::Files;
use streams::Console;

// Reads up to the end, or until there is more than a rule can have, and answers how many bytes there are.
fn read_rule<R: Read>(reader: &mut R, buffer: &mut [u8]) -> io::Result<usize>
    ensures { IfOk result (λ n. n ≤ length buffer.new) }
{
    let mut have = 0;
    for _ in 0..u64::MAX {
        let n = reader.read(&mut buffer[have..])?;
        have += n;
        if n == 0 || LONGEST < have {
            break;
        }
    }
    Ok(have)
}

// The bytes of a file. It is closed before anything is written: where standard output is closed, the file may have its number.
fn read_file<R: Files + Input, E>(
    console: &Console<R, E>,
    name: &[u8],
    buffer: &mut [u8],
) -> io::Result<usize>
    ensures { IfOk result (λ n. n ≤ length buffer.new) }
{
    let mut file = console.open_file(name)?;
    read_rule(&mut file, buffer)
}

// Answers `rule` with a file, and gives the exit status. Nothing is read where a word cannot be read. It is not built into its caller, as
// `run_batch` is not.
#[inline(never)]
pub fn run_rule<R: Files + Input + Print, E: Print>(
    console: &Console<R, E>,
    line: Line,
    out: &mut Output,
) -> Status {
    let asked = match Asked::read(line) {
        Ok(asked) => asked,
        Err(trouble) => {
            console.report(trouble.about(line));
            return Status::Trouble;
        }
    };
    // What follows the first byte, @.
    let name = line.word(BEFORE).and_then(|word| word.get(1..));
    let name = name.unwrap_or(b"");
    let mut buffer = output::large_buffer();
    match read_file(console, name, &mut buffer) {
        Ok(n) => {
            let status = reply_bytes(asked, &buffer[..n], out);
            console.write_reply(status, out.text())
        }
        Err(error) => {
            console.report_file(name, error);
            Status::Trouble
        }
    }
}
