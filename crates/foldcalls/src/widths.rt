// The identifier at every width. It is the same at each width that opens (`wider`, in crates/fold_laws), so widths differ only in how
// opening is refused.
use super::answer::Behind;
use super::explain::Reason;
use super::settings::Settings;
use line::agreement::{Agreement, WIDTHS};
use line::refusal;
use line::trouble::Status;
use output::buffer::Output;
use output::numerals::Both;
use std::fmt;

// The identifier where a width opens, or why it does not, and the name of a file behind it.
#[derive(Clone, Copy)]
struct AtWidth<'a> {
    settings: Settings,
    width: u64,
    identifier: i64,
    behind: Behind<'a>,
}

impl<'a> fmt::Display for AtWidth<'a> {
    fn fmt<W: fmt::Write>(&self, f: &mut fmt::Formatter<W>) -> fmt::Result {
        let AtWidth {
            settings,
            width,
            ..
        } = *self;
        match settings.open_at(width) {
            Ok(_) => write!(f, "{}{}", Both(self.identifier), self.behind),
            Err(refused) => {
                let head = refusal::Refused(refused.refusal);
                let reason = Reason {
                    settings,
                    width,
                    refused,
                };
                write!(f, "{head}{reason}{}", self.behind)
            }
        }
    }
}

// A line for all widths with one answer.
pub fn print_widths(
    settings: Settings,
    identifier: i64,
    behind: Behind,
    out: &mut Output,
) -> Status {
    let widths = Agreement::of(&WIDTHS.map(|width| settings.open_at(width).err()));
    widths.report(
        out,
        |width| AtWidth {
            settings,
            width,
            identifier,
            behind,
        },
    );
    widths.status()
}
