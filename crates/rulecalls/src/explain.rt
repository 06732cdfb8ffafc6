// Why a rule is refused when it is run, in words.
use super::run::{Fault, Run};
use fxcalls::domains::broken_rule;
use fxcalls::explain;
use fxcalls::request::Request;
use outcomes::refusal::Refusal;
use output::buffer::Output;
use rulereader::heads::Head;
use ruletext::tree::{Form, Input};
use std::fmt;

// A call in a sentence is cut after so many bytes.
const SHOWN: usize = 200;

#[derive(Clone, Copy)]
struct Shown<'a>(Form<'a>);

impl<'a> fmt::Display for Shown<'a> {
    fn fmt<W: fmt::Write>(&self, f: &mut fmt::Formatter<W>) -> fmt::Result {
        let mut buffer = [0; SHOWN + 1];
        let mut form = Output::new(&mut buffer);
        form.print(self.0);
        for byte in form.text().iter().take(SHOWN) {
            write!(f, "{}", char::from(*byte))?;
        }
        let dots = if SHOWN < form.text().len() { ".." } else { "" };
        write!(f, "{dots}")
    }
}

// ` is 8388608: it must be a fixnum`
#[derive(Clone, Copy)]
struct NoFixnum(i64);

impl fmt::Display for NoFixnum {
    fn fmt<W: fmt::Write>(&self, f: &mut fmt::Formatter<W>) -> fmt::Result {
        let rule = broken_rule(0, Refusal::NotFixnum, 1);
        write!(f, " is {}: it {rule}", self.0)
    }
}

// The reason of a refused rule. It holds for every width with the same answer.
#[derive(Clone, Copy)]
pub struct Reason<'a> {
    pub run: &'a Run<'a>,
    pub width: u64,
}

impl<'a> fmt::Display for Reason<'a> {
    fn fmt<W: fmt::Write>(&self, f: &mut fmt::Formatter<W>) -> fmt::Result {
        let Reason { run, width } = *self;
        let Fault { at, args } = run.fault(width);
        let Some((head, _)) = run.head(at) else {
            return Ok(());
        };
        match head {
            // A constant stands after its tag.
            Head::Constant(value) => {
                let offset = at.saturating_add(1);
                write!(f, "the constant at byte {offset}{}", NoFixnum(value))
            }
            Head::Input(index) => {
                let value = run.inputs.get(index as usize).copied().unwrap_or(0);
                write!(f, "{}{}", Input(index), NoFixnum(value))
            }
            // `in (fxdiv x0 x1): argument 2, the divisor, is 0: it must not be 0`
            Head::Call { code, count } => {
                let request = Request { code, args, count };
                match request.call(width) {
                    Ok(_) => Ok(()),
                    Err(refused) => {
                        let form = Shown(Form {
                            rule: run.rule,
                            from: at,
                        });
                        let reason = explain::Reason {
                            width,
                            request,
                            refused,
                        };
                        write!(f, "in {form}: {reason}")
                    }
                }
            }
        }
    }
}
