// The shifts, limb by limb.
ghost use Rattle.std.specs.Prelude.{◌≡◌, ◌*◌, ◌<◌, ◌^◌, length};
ghost use Rattle.bits.specs.Shift.{shift_left, shift_right};
ghost use Rattle.limbwords.specs.Value.{value};
ghost use Rattle.limbwords.specs.Results.{limb_at};

use super::limb::{window, window_below};

pub fn shift_left_limb(x: &[u32], by: u64, j: usize) -> u32
    requires x_nonzero { 0 < length x.now }
    requires by_bound { (by < 2 ^ 32) × (j < 2 ^ 32) }
    ensures { result ≡ limb_at (shift_left (value x.now) by) j }
{
    window_below(x, 32 * (j as u64), by)
}

pub fn shift_right_limb(x: &[u32], by: u64, j: usize) -> u32
    requires x_nonzero { 0 < length x.now }
    requires by_bound { (by < 2 ^ 32) × (j < 2 ^ 32) }
    ensures { result ≡ limb_at (shift_right (value x.now) by) j }
{
    window(x, 32 * (j as u64) + by)
}
