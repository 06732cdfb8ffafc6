// What a form begins with: its tag, and what follows up to the arguments.
ghost use Rattle.std.specs.Prelude.{◌≡◌, ◌≤◌, length, drop};
ghost use Rattle.fxtable.specs.Calls.{is_count};
ghost use Rattle.rules.specs.Leb128.{got};
ghost use Rattle.rules.specs.Limits.{is_stored_code};
ghost use Rattle.rules.specs.Parse.{after_tag, and_then, opens, read_head, read_number};
ghost use Rattle.rulereader.specs.Placed.{HeadRead};

use super::Offence;
use super::constants::read_constant;
use super::numbers::read_number;
use fxtable::table::{has_two_results, is_code, is_count};

// How many inputs there are.
pub const INPUTS: u64 = 16;

// A constant, an input by its index, or a call by its code and argument count.
#[derive(Clone, Copy, Debug, PartialEq, Eq)]
pub enum Head {
    Constant(i64),
    Input(u64),
    Call { code: u64, count: u64 },
}

// Whether a rule may hold the code.
#[tactic(auto, unfolding(rules::specs::Limits::is_stored_code))]
pub fn is_stored_code(code: u64) -> bool
    ensures { result ≡ is_stored_code code }
{
    is_code(code) && !has_two_results(code)
}

fn constant_head(s: &[u8], at: usize) -> Result<(Head, usize), Offence>
    requires { at ≤ length s.now }
    ensures { HeadRead s.now (after_tag 0 (drop at s.now)) result }
{
    let (value, end) = read_constant(s, at)?;
    Ok((Head::Constant(value), end))
}

fn input_head(s: &[u8], at: usize) -> Result<(Head, usize), Offence>
    requires { at ≤ length s.now }
    ensures { HeadRead s.now (after_tag 1 (drop at s.now)) result }
{
    let index = read_number(s, at)?;
    if index < INPUTS {
        Ok((Head::Input(index), at + 1))
    } else {
        Err(Offence { offset: at })
    }
}

// The argument count of a code.
fn count_head(s: &[u8], code: u64, at: usize) -> Result<(Head, usize), Offence>
    requires { at ≤ length s.now }
    ensures { HeadRead s.now (and_then (read_number (is_count code) (drop at s.now)) (λ n rest. got (opens code n) rest)) result }
{
    let count = read_number(s, at)?;
    if is_count(code, count) {
        Ok((Head::Call { code, count }, at + 1))
    } else {
        Err(Offence { offset: at })
    }
}

fn call_head(s: &[u8], at: usize) -> Result<(Head, usize), Offence>
    requires { at ≤ length s.now }
    ensures { HeadRead s.now (after_tag 2 (drop at s.now)) result }
{
    let code = read_number(s, at)?;
    if is_stored_code(code) {
        count_head(s, code, at + 1)
    } else {
        Err(Offence { offset: at })
    }
}

// The head of the form from `at` on, and where it ends.
pub fn read_head(s: &[u8], at: usize) -> Result<(Head, usize), Offence>
    requires { at ≤ length s.now }
    ensures { HeadRead s.now (read_head (drop at s.now)) result }
{
    match read_number(s, at)? {
        0 => constant_head(s, at + 1),
        1 => input_head(s, at + 1),
        2 => call_head(s, at + 1),
        _ => Err(Offence { offset: at }),
    }
}
