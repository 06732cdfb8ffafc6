// Limbs put into a part of the output buffer, as many as the part has.
ghost use Rattle.std.specs.Prelude.{◌+◌, ◌*◌, ◌<◌, ◌≤◌, ◌^◌, length};
ghost use Rattle.limbwords.specs.Value.{value};
ghost use Rattle.limbwords.specs.Results.{bits_from, limb_at};
ghost use Rattle.limbwords.specs.Described.{described};
ghost use Rattle.outcomes.specs.Puts.{Puts};

use super::each::put_each;
use limbwords::any::limb_of;
use limbwords::described::Described;
use limbwords::limb::{join, window};

// Windows of x from bit k of limb i on, each joined from two limbs of x; where k is 0, they are limbs of x.
fn put_inner(x: &[u32], i: usize, k: u64, part: &mut [u32])
    requires k_bound { k < 32 }
    requires in_bounds { (i + length part.old ≤ length x.now) × (0 < length part.old → i + length part.old < length x.now) }
    ensures { Puts 0 (λ j. bits_from (value x.now) (32 * i + k + 32 * j)) part.old part.new 0 (length part.old) }
{
    if k == 0 {
        put_each(|j| x[i + j], part);
    } else {
        put_each(|j| join(x[i + j], x[i + j + 1], k), part);
    }
}

// Windows of x from a position on, also past the last limb.
fn put_outer(x: &[u32], at: u64, part: &mut [u32])
    requires x_nonzero { (0 < length x.now) × (at < 2 ^ 62) }
    requires part_bound { length part.old < 2 ^ 32 }
    ensures { Puts 0 (λ j. bits_from (value x.now) (at + 32 * j)) part.old part.new 0 (length part.old) }
{
    put_each(|j| window(x, at + 32 * (j as u64)), part);
}

// Windows of x from a position on, one for each limb.
pub fn put_windows(x: &[u32], at: u64, part: &mut [u32])
    requires x_nonzero { (0 < length x.now) × (at < 2 ^ 40) }
    requires part_bound { length part.old < 2 ^ 32 }
    ensures { Puts 0 (λ j. bits_from (value x.now) (at + 32 * j)) part.old part.new 0 (length part.old) }
{
    let i = ((at / 32) as usize).min(x.len());
    let whole = x.len().saturating_sub(i + 1).min(part.len());
    put_inner(x, i, at % 32, &mut part[..whole]);
    put_outer(x, at + 32 * (whole as u64), &mut part[whole..]);
}

// The limbs of any operation's result from one on, limb by limb.
pub fn put_limbs(d: &Described, from: usize, part: &mut [u32])
    requires part_bound { from + length part.old < 2 ^ 32 }
    ensures { Puts 0 (λ j. limb_at (described d.now) (from + j)) part.old part.new 0 (length part.old) }
{
    put_each(|j| limb_of(d, from + j), part);
}
