// The reader of stored rules: whether bytes are a rule, at which width it runs, or where the earliest offending item begins. Its functions are
// given a position in the bytes, and not the slice from there on, which would be no plainer: each caller keeps positions, as offsets that are
// told or as bounds of a part, and would have to find them again from the lengths of slices.
#![tactic(auto)]

ghost use Rattle.std.specs.Prelude.{◌≡◌, ◌≤◌, length, drop, cond, eqb};
ghost use Rattle.rules.specs.Limits.{deepest, is_stored_width};
ghost use Rattle.rules.specs.Parse.{and_then, parse, read_form, rule, whole};
ghost use Rattle.rules.specs.Leb128.{got};
ghost use Rattle.rules.specs.Answers.{default_width, read_answer};
ghost use Rattle.rulereader.specs.Placed.{RuleRead, StoredWidth};

pub mod constants;
pub mod forms;
pub mod heads;
pub mod numbers;

use forms::read_one;
use fxtable::width::is_width;
use numbers::read_number;
use outcomes::refusal::Refusal;
use rules::ReadAnswer;

pub const LONGEST: usize = 4096;

pub const DEEPEST: u64 = 32;

// What a stored width of 0 means.
pub const DEFAULT_WIDTH: u64 = 30;

// Where the earliest offending item begins.
#[derive(Clone, Copy, Debug, PartialEq, Eq)]
pub struct Offence {
    pub offset: usize,
}

// The stored width, and where the form begins.
#[derive(Clone, Copy, Debug, PartialEq, Eq)]
pub struct Stored {
    pub width: u64,
    pub form: usize,
}

#[tactic(auto, unfolding(rules::specs::Limits::is_stored_width))]
pub fn is_stored_width(width: u64) -> bool
    ensures { result ≡ is_stored_width width }
{
    width == 0 || is_width(width)
}

// The width that a rule with a stored width runs at.
pub fn runs_at(width: u64) -> u64
    ensures { result ≡ cond (eqb width 0) default_width width }
{
    if width == 0 { DEFAULT_WIDTH } else { width }
}

// The form of a rule, and that nothing stands after it.
fn read_last_form(s: &[u8], width: u64, at: usize) -> Result<Stored, Offence>
    requires { at ≤ length s.now }
    ensures { RuleRead s.now (whole (length s.now) (and_then (read_form deepest (drop at s.now)) (λ f rest. got (rule width f) rest))) result }
{
    let end = read_one(s, at, DEEPEST)?;
    if end == s.len() {
        Ok(Stored { width, form: at })
    } else {
        Err(Offence { offset: end })
    }
}

// A whole rule, of which nothing is run yet.
pub fn read_rule(s: &[u8]) -> Result<Stored, Offence>
    ensures rule_read { RuleRead s.now (parse s.now) result }
    ensures stored_width { StoredWidth result }
{
    if LONGEST < s.len() {
        return Err(Offence { offset: LONGEST });
    }
    let width = read_number(s, 0)?;
    if is_stored_width(width) {
        read_last_form(s, width, 1)
    } else {
        Err(Offence { offset: 0 })
    }
}

// Reads a rule. Refusal 10, with the offset of the earliest offending item.
pub fn read(s: &[u8]) -> ReadAnswer
    ensures { result ≡ read_answer default_width s.now }
{
    match read_rule(s) {
        Ok(stored) => ReadAnswer {
            refusal: 0,
            offset: 0,
            width: runs_at(stored.width),
        },
        Err(offence) => ReadAnswer {
            refusal: u64::from(Refusal::BadRule),
            offset: offence.offset as u64,
            width: 0,
        },
    }
}
