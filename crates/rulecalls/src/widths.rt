// `rule widths`: a rule run at every width, and which widths agree.
use super::explain::Reason;
use super::run::Run;
use line::agreement::{Agreement, WIDTHS};
use line::refusal::Refused;
use line::trouble::Status;
use output::buffer::Output;
use output::numerals::Both;
use std::fmt;

// The rule's value at a width, or why it has none.
#[derive(Clone, Copy)]
struct AtWidth<'a> {
    run: &'a Run<'a>,
    width: u64,
}

impl<'a> fmt::Display for AtWidth<'a> {
    fn fmt<W: fmt::Write>(&self, f: &mut fmt::Formatter<W>) -> fmt::Result {
        let AtWidth { run, width } = *self;
        match run.value(width) {
            Ok(value) => write!(f, "{}", Both(value)),
            Err(refused) => {
                let head = Refused(refused.refusal);
                write!(f, "{head}{}", Reason { run, width })
            }
        }
    }
}

pub fn reply_widths(run: &Run, out: &mut Output) -> Status {
    let agreement = Agreement::of(&WIDTHS.map(|width| run.outcome(width)));
    agreement.report(out, |width| AtWidth { run, width });
    agreement.status()
}
