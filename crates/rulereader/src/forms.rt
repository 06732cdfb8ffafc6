// Forms: reading a form calls the list reader, which calls the form reader, with the remaining depth and bytes falling. Each answers where
// what was read ends.
ghost use Rattle.std.specs.Prelude.{◌≡◌, ◌≤◌, length, drop};
ghost use Rattle.rules.specs.Parse.{read_form, read_forms};
ghost use Rattle.rulereader.specs.Placed.{Read};

use super::Offence;
use super::heads::{Head, read_head};

// The form from `at` on, which may be nested `depth` deep.
#[cycle(read_form_read_forms)]
fn read_form(s: &[u8], at: usize, depth: u64) -> Result<usize, Offence>
    requires { at ≤ length s.now }
    ensures { Read s.now (read_form depth (drop at s.now)) result }
{
    if depth == 0 {
        return Err(Offence { offset: at });
    }
    let (head, end) = read_head(s, at)?;
    match head {
        Head::Call { count, .. } => read_forms(s, end, depth - 1, count),
        _ => Ok(end),
    }
}

// n forms from `at` on.
#[cycle(read_form_read_forms)]
fn read_forms(s: &[u8], at: usize, depth: u64, n: u64) -> Result<usize, Offence>
    requires { at ≤ length s.now }
    ensures { Read s.now (read_forms (read_form depth) n (drop at s.now)) result }
{
    if n == 0 {
        return Ok(at);
    }
    let end = read_form(s, at, depth)?;
    read_forms(s, end, depth, n - 1)
}

// The one form of a rule. The list reader is the form reader's only caller, so that the compiler builds the one into the other.
pub fn read_one(s: &[u8], at: usize, depth: u64) -> Result<usize, Offence>
    requires { at ≤ length s.now }
    ensures { Read s.now (read_form depth (drop at s.now)) result }
{
    read_forms(s, at, depth, 1)
}
