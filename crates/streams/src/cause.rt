// Why a call of the system failed, in the system's words.
use output::buffer::Output;
use std::{fmt, io};

// `Too many levels of symbolic links`, without what the library puts behind it: ` (os error 40)`.
#[derive(Clone, Copy)]
pub struct Words(pub io::Error);

impl fmt::Display for Words {
    fn fmt<W: fmt::Write>(&self, f: &mut fmt::Formatter<W>) -> fmt::Result {
        let mut bytes = [0; 256];
        let mut text = Output::new(&mut bytes);
        text.print(self.0);
        let words = std::str::from_utf8(text.text()).unwrap_or("");
        match words.rsplit_once(" (os error ") {
            Some((words, _)) => f.write_str(words),
            None => f.write_str(words),
        }
    }
}
