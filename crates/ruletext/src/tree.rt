// A form as Scheme writes it, with the names of R6RS; input 3 is x3.
use super::walk::{Event, Walk};
use names::FixnumName;
use rulereader::heads::INPUTS;
use std::fmt;

#[derive(Clone, Copy)]
pub struct Input(pub u64);

impl fmt::Display for Input {
    fn fmt<W: fmt::Write>(&self, f: &mut fmt::Formatter<W>) -> fmt::Result {
        write!(f, "x{}", self.0)
    }
}

// The form that begins at an offset of a rule.
#[derive(Clone, Copy)]
pub struct Form<'a> {
    pub rule: &'a [u8],
    pub from: usize,
}

impl<'a> fmt::Display for Form<'a> {
    fn fmt<W: fmt::Write>(&self, f: &mut fmt::Formatter<W>) -> fmt::Result {
        let mut inside = false;
        for event in Walk::new(self.rule, self.from) {
            // Before a form inside a call.
            let blank = if inside { " " } else { "" };
            match event {
                Event::Constant(value) => write!(f, "{blank}{value}")?,
                Event::Input(index) => write!(f, "{blank}{}", Input(index))?,
                Event::Opens { code } => write!(f, "{blank}({}", FixnumName(code))?,
                Event::Closes => write!(f, ")")?,
            }
            inside = true;
        }
        Ok(())
    }
}

// How many inputs the form that begins at an offset needs: one more than the greatest index it has, or 0.
pub fn inputs_needed(rule: &[u8], from: usize) -> u64 {
    let mut needed = 0;
    for event in Walk::new(rule, from) {
        if let Event::Input(index) = event {
            needed = index.saturating_add(1).max(needed);
        }
    }
    needed
}
