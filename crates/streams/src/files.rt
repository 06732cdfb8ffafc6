// Files by name. The name - is standard input's.
use super::Console;
use super::cause::Words;
use line::trouble::Shown;
use std::io::{ErrorKind, Read};
use std::rt::Files;
use std::{fmt, fs, io, str};

const INPUT: &[u8] = b"-";

// Why a file cannot be read: the usual causes in words of the command.
#[derive(Clone, Copy)]
struct Cause(io::Error);

impl fmt::Display for Cause {
    fn fmt<W: fmt::Write>(&self, f: &mut fmt::Formatter<W>) -> fmt::Result {
        match self.0.kind() {
            ErrorKind::NotFound | ErrorKind::NotADirectory => f.write_str("no such file"),
            ErrorKind::PermissionDenied => f.write_str("no permission"),
            ErrorKind::IsADirectory => f.write_str("it is a folder"),
            ErrorKind::InvalidFilename => f.write_str("the name is too long"),
            _ => write!(f, "{}", Words(self.0)),
        }
    }
}

// A file that is open: standard input, or one that was opened by its name.
#[derive(Drop)]
pub enum Source<I, F> {
    Input(I),
    File(F),
}

impl<I: Read, F: Read> Read for Source<I, F> {
    fn read(&mut self, buf: &mut [u8]) -> io::Result<usize> {
        match self {
            Source::Input(input) => input.read(buf),
            Source::File(file) => file.read(buf),
        }
    }
}

impl<'a, R: Files + Input, E> Console<'a, R, E> {
    // Opens a file, which is closed where it is dropped, but standard input is not. The library takes a name that is UTF-8, and no other.
    pub fn open_file(&self, name: &[u8]) -> io::Result<Source<R::Reader, R::File>> {
        if name == INPUT {
            return Ok(Source::Input(self.rt.reader()));
        }
        let name = str::from_utf8(name).map_err(|_| io::Error::new(
            ErrorKind::InvalidInput,
            "the name is not UTF-8",
        ))?;
        Ok(Source::File(fs::open(self.rt, name)?))
    }
}

impl<'a, R, E: Print> Console<'a, R, E> {
    // Says on standard error why a file cannot be read.
    pub fn report_file(&self, name: &[u8], error: io::Error) {
        if name == INPUT {
            self.report_input();
            return;
        }
        let name = Shown::file_name(name);
        let cause = Cause(error);
        self.report(format_args!("ql: '{name}' cannot be read: {cause}\n"));
    }
}
