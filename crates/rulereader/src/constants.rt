// The constants of a rule: integers in groups of seven bits, by sign and magnitude.
ghost use Rattle.std.specs.Prelude.{◌≡◌, ◌≤◌, ◌<◌, ◌-◌, cond, length, drop};
ghost use Rattle.rules.specs.Parse.{read_constant};
ghost use Rattle.rulereader.specs.Placed.{constant_from, joined_group, GroupsRead, ConstantRead};

use super::Offence;
use words::sign::from_magnitude;

// 2^56: with a group before it, a magnitude from here on is that of no signed 64-bit number.
const TOO_LARGE: u64 = 0x100000000000000;

// An integer's sign, its magnitude, and where it ends.
#[derive(Clone, Copy, Debug, PartialEq, Eq)]
pub struct Groups {
    pub negative: bool,
    pub magnitude: u64,
    pub end: usize,
}

// A group as a part of a magnitude: of a negative integer's, the complement.
fn part(negative: bool, g: u64) -> u64
    requires { g < 128 }
    ensures { result ≡ cond negative (127 - g) g }
{
    if negative { 127 - g } else { g }
}

// A group g before those of an integer: the number begins at `start`.
#[tactic(auto, using(crate::proofs::ConstantLaws::part_padded, crate::proofs::ConstantLaws::part_kept))]
fn join(start: usize, rest: Groups, g: u64) -> Result<Groups, Offence>
    requires { g < 128 }
    ensures { result ≡ joined_group start rest g }
{
    if TOO_LARGE <= rest.magnitude {
        return Err(Offence { offset: start });
    }
    let m = rest.magnitude * 128 + part(rest.negative, g);
    if m < 64 {
        Err(Offence { offset: start })
    } else {
        Ok(Groups {
            magnitude: m,
            ..rest
        })
    }
}

// At most k groups from `at` on, of an integer that begins at `start`. It calls itself, and does not loop, since the groups are joined from the
// last to the first.
fn read_groups(s: &[u8], start: usize, at: usize, k: u64) -> Result<Groups, Offence>
    requires { (start ≤ length s.now) × (at ≤ length s.now) }
    ensures { GroupsRead s.now (constant_from (length (drop start s.now)) k (drop at s.now)) result }
{
    if k == 0 {
        return Err(Offence { offset: start });
    }
    if at == s.len() {
        return Err(Offence { offset: at });
    }
    let b = u64::from(s[at]);
    if b < 64 {
        return Ok(Groups {
            negative: false,
            magnitude: b,
            end: at + 1,
        });
    }
    if b < 128 {
        return Ok(Groups {
            negative: true,
            magnitude: 127 - b,
            end: at + 1,
        });
    }
    let rest = read_groups(s, start, at + 1, k - 1)?;
    join(start, rest, b - 128)
}

// The constant from `at` on, and where it ends. Most have one group.
pub fn read_constant(s: &[u8], at: usize) -> Result<(i64, usize), Offence>
    requires { at ≤ length s.now }
    ensures { ConstantRead s.now (read_constant (drop at s.now)) result }
{
    if at < s.len() {
        let b = s[at];
        if b < 64 {
            return Ok((i64::from(b), at + 1));
        }
    }
    let groups = read_groups(s, at, at, 10)?;
    Ok((
        from_magnitude(groups.negative, groups.magnitude),
        groups.end,
    ))
}
