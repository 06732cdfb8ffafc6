// The limbs of an operand at any index, and its bits from any position on.
ghost use Rattle.std.specs.Prelude.{◌≡◌, ◌+◌, ◌*◌, ◌/◌, ◌%◌, ◌<◌, ◌^◌, length};
ghost use Rattle.bits.specs.Shift.{shift_left};
ghost use Rattle.limbwords.specs.Value.{value};
ghost use Rattle.limbwords.specs.Results.{bits_from, limb_at};

// 32 bits of two limbs from bit k of the lower one on.
pub fn join(low: u32, high: u32, k: u64) -> u32
    requires { k < 32 }
    ensures { result ≡ (high * 2 ^ 32 + low) / 2 ^ k % 2 ^ 32 }
{
    let both = u64::from(high) * 0x1_0000_0000 + u64::from(low);
    ((both >> k) % 0x1_0000_0000) as u32
}

// What continues x past its last limb.
pub fn padding(x: &[u32]) -> u32
    requires { 0 < length x.now }
    ensures { result ≡ limb_at (value x.now) (length x.now) }
{
    if x[x.len() - 1] < 0x8000_0000 {
        0
    } else {
        0xFFFF_FFFF
    }
}

pub fn limb(x: &[u32], j: usize) -> u32
    requires { 0 < length x.now }
    ensures { result ≡ limb_at (value x.now) j }
{
    if j < x.len() { x[j] } else { padding(x) }
}

pub fn window(x: &[u32], at: u64) -> u32
    requires { (0 < length x.now) × (at < 2 ^ 63) }
    ensures { result ≡ bits_from (value x.now) at }
{
    let j = (at / 32) as usize;
    join(limb(x, j), limb(x, j + 1), at % 32)
}

// The same of x shifted left: its bits from a position on, where those below bit `by` are zeros.
pub fn window_below(x: &[u32], at: u64, by: u64) -> u32
    requires x_nonzero { 0 < length x.now }
    requires at_bound { (at < 2 ^ 63) × (by < 2 ^ 63) }
    ensures { result ≡ bits_from (shift_left (value x.now) by) at }
{
    if by <= at {
        return window(x, at - by);
    }
    if 32 <= by - at {
        return 0;
    }
    join(0, limb(x, 0), 32 - (by - at))
}
