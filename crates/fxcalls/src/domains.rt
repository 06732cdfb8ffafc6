// What the arguments of a fixnum operation must be, in words.
use fxtable::domains::Domain;
use fxtable::table::signature_of;
use line::refusal::{Argument, Counts};
use line::roles::domain_of;
use outcomes::refusal::Refusal;
use std::fmt;

// How many arguments the operation with a code takes.
pub fn counts(code: u64) -> Counts {
    let signature = signature_of(code);
    Counts {
        least: signature.least,
        most: signature.most,
    }
}

// The rule of a domain, at any width.
fn rule(domain: Domain) -> &'static str {
    match domain {
        Domain::Fixnum => "must be a fixnum",
        Domain::Divisor => "must not be 0",
        Domain::Position => "must be from 0 to width - 1",
        Domain::FieldEnd => "must be from start to width - 1",
        Domain::NewBit => "must be 0 or 1",
        Domain::SignedDistance => "must be from -(width - 1) to width - 1",
        Domain::Distance => "must be from 0 to width - 1",
        Domain::Rotation => "must be from 0 to end - start",
    }
}

// The rule that the argument at a place breaks: to be a fixnum, or that of its domain.
pub fn broken_rule(code: u64, refusal: Refusal, place: u64) -> &'static str {
    if refusal == Refusal::NotFixnum {
        rule(Domain::Fixnum)
    } else {
        rule(domain_of(code, place))
    }
}

// The domains of the arguments of the operation with a code: `argument 2, the divisor, must not be 0`, each on a line of its own. An argument
// that may be any fixnum, as the first may, has none.
#[derive(Clone, Copy)]
pub struct Domains(pub u64);

impl fmt::Display for Domains {
    fn fmt<W: fmt::Write>(&self, f: &mut fmt::Formatter<W>) -> fmt::Result {
        let code = self.0;
        for place in 2..=4 {
            let domain = domain_of(code, place);
            if !matches!(domain, Domain::Fixnum) {
                writeln!(f, "{} {}", Argument { code, place }, rule(domain))?;
            }
        }
        Ok(())
    }
}
