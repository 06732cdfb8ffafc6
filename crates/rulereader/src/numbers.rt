// The unsigned numbers of a rule. Those that a rule may hold are all below 128 and so one group: of more groups the number is not formed,
// only where they offend is told.
ghost use Rattle.std.specs.Prelude.{◌≡◌, ◌≤◌, length, drop};
ghost use Rattle.rulereader.specs.Placed.{cut_off, NumberRead};

use super::Offence;

// One more than a group can be: added to each group of a number but the last.
pub const CONTINUED: u8 = 128;

// Whether bytes end before the last group of a number, with fewer than k groups.
fn is_cut_off(rest: &[u8], k: usize) -> bool
    ensures { result ≡ cut_off k rest.now }
{
    rest.len() < k && rest.iter().all(|b| CONTINUED <= *b)
}

// The number of one group from `at` on.
pub fn read_number(s: &[u8], at: usize) -> Result<u64, Offence>
    requires { at ≤ length s.now }
    ensures { NumberRead s.now at result }
{
    if at == s.len() {
        return Err(Offence { offset: at });
    }
    let b = s[at];
    if b < CONTINUED {
        return Ok(u64::from(b));
    }
    if is_cut_off(&s[at + 1..], 8) {
        Err(Offence { offset: s.len() })
    } else {
        Err(Offence { offset: at })
    }
}
