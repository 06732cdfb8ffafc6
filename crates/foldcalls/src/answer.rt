// The answer to a fold: an identifier, or why there is none.
use super::explain::{Reason, RefusedOpening};
use super::settings::Settings;
use super::widths::print_widths;
use fold::{Fold, Refused, read};
use line::trouble::{Shown, Status};
use output::buffer::Output;
use output::numerals::Both;
use std::fmt;

// The name of a file behind an answer, after two blanks, where it is to stand there.
#[derive(Clone, Copy)]
pub struct Behind<'a>(pub Option<&'a [u8]>);

impl<'a> fmt::Display for Behind<'a> {
    fn fmt<W: fmt::Write>(&self, f: &mut fmt::Formatter<W>) -> fmt::Result {
        match self.0 {
            Some(name) => write!(f, "  {}", Shown::file_name(name)),
            None => Ok(()),
        }
    }
}

// A fold that is read. Its record is open.
pub fn reply_identifier(settings: Settings, f: Fold, behind: Behind, out: &mut Output) -> Status {
    let identifier = read(f).unwrap_or(0);
    if settings.width.is_none() {
        return print_widths(settings, identifier, behind, out);
    }
    out.print(format_args!("{}{behind}\n", Both(identifier)));
    Status::Done
}

// A fold that is not opened, at its width or at any.
pub fn reply_unopened(settings: Settings, refused: Refused, out: &mut Output) -> Status {
    match settings.width {
        Some(width) => out.print(RefusedOpening(Reason {
            settings,
            width,
            refused,
        })),
        None => {
            let _ = print_widths(settings, 0, Behind(None), out);
        }
    }
    Status::Refused
}
