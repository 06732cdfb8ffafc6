// The answer to `rule`, of a rule's bytes.
use super::asked::{Asked, BEFORE, Task};
use super::hexadecimal::decode;
use super::run::Run;
use super::widths::reply_widths;
use line::Line;
use line::refusal::Refused;
use line::trouble::{Status, Trouble};
use outcomes::refusal::Refusal;
use output::buffer::Output;
use rulereader::{Stored, read_rule, runs_at};
use ruletext::breach::Breach;
use ruletext::tree::{Form, Input, inputs_needed};

// The width, and the form on a line of its own.
fn reply_read(rule: &[u8], stored: Stored, out: &mut Output) -> Status {
    let width = runs_at(stored.width);
    let default = if stored.width == 0 {
        ", stored as 0"
    } else {
        ""
    };
    let form = Form {
        rule,
        from: stored.form,
    };
    out.print(format_args!("width {width}{default}\n{form}\n"));
    Status::Done
}

// `ql: the rule has x3, and 2 inputs are given`
fn reply_missing(needed: u64, given: usize, out: &mut Output) -> Status {
    let last = Input(needed.saturating_sub(1));
    let inputs = if given == 1 { "input is" } else { "inputs are" };
    out.print(format_args!("ql: the rule has {last}, and {given} {inputs} given\n"));
    Status::Trouble
}

// The answer to words that can be read, about bytes.
pub fn reply_bytes(asked: Asked, rule: &[u8], out: &mut Output) -> Status {
    let stored = match read_rule(rule) {
        Ok(stored) => stored,
        Err(offence) => {
            let head = Refused(Refusal::BadRule);
            let breach = Breach {
                rule,
                offset: offence.offset,
            };
            out.print(format_args!("{head}{breach}\n"));
            return Status::Refused;
        }
    };
    if asked.task == Task::Read {
        return reply_read(rule, stored, out);
    }
    let needed = inputs_needed(rule, stored.form);
    if (asked.given as u64) < needed {
        return reply_missing(needed, asked.given, out);
    }
    let run = Run {
        rule,
        form: stored.form,
        inputs: asked.inputs,
    };
    if asked.task == Task::Widths {
        reply_widths(&run, out)
    } else {
        run.reply(runs_at(stored.width), out)
    }
}

// The answer to `rule`, with a rule in hexadecimal.
pub fn reply_rule(line: Line, out: &mut Output) -> Result<Status, Trouble> {
    let asked = Asked::read(line)?;
    let mut bytes = output::large_buffer();
    let digits = line.word(BEFORE).unwrap_or(b"");
    let n = decode(digits, &mut bytes).map_err(|expected| Trouble {
        word: BEFORE,
        expected,
    })?;
    Ok(reply_bytes(asked, &bytes[..n], out))
}
