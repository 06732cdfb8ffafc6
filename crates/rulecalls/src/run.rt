// A rule that is run, and the part of it that is refused.
use super::explain::Reason;
use fxcalls::explain::Ending;
use fxcalls::request::Refused;
use line::refusal;
use line::refusal::{argument_at, refusal_of};
use line::trouble::Status;
use output::buffer::Output;
use output::numerals::Both;
use ruleevaluator::evaluate;
use rulereader::heads::{Head, read_head};
use rulereader::{DEEPEST, LONGEST};
use ruletext::walk::form_end;

// A rule that is read, where its form begins, and the inputs.
#[derive(Clone, Copy)]
pub struct Run<'a> {
    pub rule: &'a [u8],
    pub form: usize,
    pub inputs: [i64; 16],
}

// The part of a rule that is refused: the first, in the order of evaluation. Where it begins, and what the arguments are where it is a call.
#[derive(Clone, Copy)]
pub struct Fault {
    pub at: usize,
    pub args: [i64; 4],
}

// Why a rule has no value: the refusal of a part, where that begins, and the argument that the refusal names.
#[derive(Clone, Copy, Debug, PartialEq, Eq)]
pub struct Failure {
    refused: Refused,
    at: usize,
    argument: Option<i64>,
}

impl<'a> Run<'a> {
    // What the form at an offset begins with, and where that ends.
    pub fn head(&self, at: usize) -> Option<(Head, usize)> {
        if at <= self.rule.len() {
            read_head(self.rule, at).ok()
        } else {
            None
        }
    }

    // What the form from an offset up to another comes to at a width. Each form of a rule, after a width, is a rule itself.
    fn part(&self, from: usize, end: usize, width: u64) -> Result<i64, Refused> {
        let mut buffer = [0; LONGEST];
        let mut part = Output::new(&mut buffer);
        part.put(&[(width % 128) as u8]);
        part.put(self.rule.get(from..end).unwrap_or(b""));
        let answer = evaluate(part.text(), self.inputs);
        match refusal_of(answer.refusal) {
            None => Ok(answer.value),
            Some(refusal) => Err(Refused {
                refusal,
                place: (answer.place != 0).then_some(answer.place),
            }),
        }
    }

    // What the rule comes to at a width.
    pub fn value(&self, width: u64) -> Result<i64, Refused> {
        self.part(self.form, self.rule.len(), width)
    }

    // The arguments of the form at an offset, where it is a call, or the offset of the first that is refused.
    fn arguments(&self, at: usize, width: u64) -> Result<[i64; 4], usize> {
        let mut values = [0; 4];
        if let Some((Head::Call { count, .. }, end)) = self.head(at) {
            let mut from = end;
            for value in values.iter_mut().take(count as usize) {
                let end = form_end(self.rule, from);
                *value = self.part(from, end, width).map_err(|_| from)?;
                from = end;
            }
        }
        Ok(values)
    }

    // The refused part of a rule that is refused. It is the form itself where no argument is refused.
    pub fn fault(&self, width: u64) -> Fault {
        let mut at = self.form;
        for _ in 0..DEEPEST {
            match self.arguments(at, width) {
                Ok(args) => return Fault { at, args },
                Err(refused) => at = refused,
            }
        }
        Fault { at, args: [0; 4] }
    }

    // The same as `value`, with all that is said of a refusal.
    pub fn outcome(&self, width: u64) -> Result<i64, Failure> {
        self.value(width).map_err(|refused| {
            let Fault { at, args } = self.fault(width);
            Failure {
                refused,
                at,
                argument: refused.place.map(|place| argument_at(place, args)),
            }
        })
    }

    // `rule run`, at a width.
    pub fn reply(&self, width: u64, out: &mut Output) -> Status {
        match self.value(width) {
            Ok(value) => {
                out.print(format_args!("{}\n", Both(value)));
                Status::Done
            }
            Err(refused) => {
                let head = refusal::Refused(refused.refusal);
                let reason = Reason { run: self, width };
                let ending = Ending { width, refused };
                out.print(format_args!("{head}{reason}{ending}\n"));
                Status::Refused
            }
        }
    }
}
