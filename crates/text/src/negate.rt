// Limbs of -z from those of z.
ghost use Rattle.std.specs.Prelude.{◌≡◌, cond, ◌-◌, ◌%◌, ◌^◌, neg_ℤ, length};
ghost use Rattle.limbwords.specs.Value.{value, limbs_of};

// A limb of -z from that of z, and whether a lower limb of z is not 0.
fn negated(n: u32, lower: bool) -> u32
    ensures { result ≡ cond lower (2 ^ 32 - 1 - n) ((2 ^ 32 - n) % 2 ^ 32) }
{
    if lower {
        !n
    } else if n == 0 {
        0
    } else {
        !(n - 1)
    }
}

// As many limbs of -z as there are.
pub fn negate(x: &mut [u32])
    ensures { x.new ≡ limbs_of (length x.old) (neg_ℤ (value x.old)) }
{
    let mut lower = false;
    for limb in x.iter_mut() {
        let n = *limb;
        *limb = negated(n, lower);
        lower |= n != 0;
    }
}
