// Words put together from the bits of others.
ghost use Rattle.std.specs.Prelude.{◌≡◌, cond, ℕ, ◌+◌, ◌*◌, ◌-◌, ◌<◌, ◌≤◌, ◌^◌, ltb, pos};
ghost use Rattle.bits.specs.Testbit.{testbit};

use words::sign::power;

// The bits of one word below bit k, and of another from there on.
fn splice(low: u32, high: u32, k: u64) -> u32
    requires { k ≤ 32 }
    ensures { (t : ℕ) → t < 32 → testbit (pos result) t ≡ cond (ltb t k) (testbit (pos low) t) (testbit (pos high) t) }
{
    let unit = power(k);
    (u64::from(high) / unit * unit + u64::from(low) % unit) as u32
}

// The same for limb j of an integer, where `at` is a position in the whole.
pub fn splice_at(low: u32, high: u32, j: usize, at: u64) -> u32
    requires { (j < 2 ^ 32) × (at < 2 ^ 63) }
    ensures { (t : ℕ) → t < 32 → testbit (pos result) t ≡ cond (ltb (32 * j + t) at) (testbit (pos low) t) (testbit (pos high) t) }
{
    let below = 32 * (j as u64);
    if at <= below {
        return high;
    }
    if below + 32 <= at {
        return low;
    }
    splice(low, high, at - below)
}
