// Natural numbers as limbs, changed in place.
ghost use Rattle.std.specs.Prelude.{◌≡◌, ◌+◌, ◌*◌, ◌/◌, ◌%◌, ◌^◌, ◌<◌, min, length};
ghost use Rattle.text.specs.Naturals.{natural};
ghost use Rattle.fltext.specs.Limbs.{Becomes};

// The number times b, and c more.
pub fn multiply_add(x: &mut [u32], b: u64, c: u64)
    requires b_bound { (b < 2 ^ 32) × (c < 2 ^ 32) }
    requires c_bound { natural x.old * b + c < 2 ^ (32 * length x.old) }
    ensures { Becomes (natural x.old * b + c) x.old x.new }
{
    let mut carry = c;
    for limb in x.iter_mut() {
        let t = u64::from(*limb) * b + carry;
        *limb = (t % 0x1_0000_0000) as u32;
        carry = t / 0x1_0000_0000;
    }
}

// The quotient by b. Answers the remainder.
pub fn divide(x: &mut [u32], b: u64) -> u64
    requires { (0 < b) × (b < 2 ^ 32) }
    ensures value { result ≡ natural x.old % b }
    ensures becomes { Becomes (natural x.old / b) x.old x.new }
{
    let mut r = 0;
    for j in (0..x.len()).rev() {
        let t = r * 0x1_0000_0000 + u64::from(x[j]);
        x[j] = (t / b) as u32;
        r = t % b;
    }
    r
}

// The number, or 2^53 where it is more.
pub fn capped(x: &[u32]) -> u64
    ensures { result ≡ min (natural x.now) (2 ^ 53) }
{
    let mut n = 0;
    for j in (0..x.len()).rev() {
        if 0x20_0000 <= n {
            return 0x20_0000_0000_0000;
        }
        n = n * 0x1_0000_0000 + u64::from(x[j]);
    }
    n
}
