// An answer that is written, and what is said where it cannot be.
ghost use Rattle.std.specs.Prelude.{◌≡◌, ◌⊎◌};

use super::Console;
use super::cause::Words;
use line::trouble::Status;
use output::buffer::Output;
use std::io::ErrorKind;
use std::{fmt, io};

// The system's number for a stream that is closed, which has no kind of its own.
const EBADF: i32 = 9;

// Why an answer cannot be written.
#[derive(Clone, Copy)]
struct Cause(io::Error);

impl fmt::Display for Cause {
    fn fmt<W: fmt::Write>(&self, f: &mut fmt::Formatter<W>) -> fmt::Result {
        if self.0.raw_os_error() == Some(EBADF) {
            return f.write_str("standard output is closed");
        }
        match self.0.kind() {
            ErrorKind::StorageFull => f.write_str("no space is left on the device"),
            _ => write!(f, "{}", Words(self.0)),
        }
    }
}

impl<'a, R, E: Print> Console<'a, R, E> {
    // Says something on standard error, by one write. What cannot be written there is lost. It is not built into its callers, whose frames would
    // each have its buffer.
    #[inline(never)]
    pub fn report<M: fmt::Display + Drop>(&self, message: M) {
        let mut bytes = [0; 8192];
        let mut text = Output::new(&mut bytes);
        text.print(message);
        let _ = self.errors.write_all(text.text());
    }

    pub fn report_input(&self) {
        self.report("ql: standard input cannot be read\n");
    }
}

impl<'a, R: Print, E: Print> Console<'a, R, E> {
    // Writes to standard output, or says on standard error why it cannot. Where nobody reads it any more, nothing is said.
    pub fn write_answer(&self, text: &[u8]) -> io::Result<()> {
        self.rt.write_all(text).inspect_err(|error| {
            if error.kind() != ErrorKind::BrokenPipe {
                let cause = Cause(*error);
                self.report(format_args!("ql: the answer cannot be written: {cause}\n"));
            }
        })
    }

    // Writes what is said of a word to standard error, and any other answer to standard output. Answers the exit status.
    pub fn write_reply(&self, status: Status, text: &[u8]) -> Status
        ensures { (result ≡ status) ⊎ (result ≡ Status.Trouble) }
    {
        if status == Status::Trouble {
            let _ = self.errors.write_all(text);
            return Status::Trouble;
        }
        match self.write_answer(text) {
            Ok(()) => status,
            Err(_) => Status::Trouble,
        }
    }
}
