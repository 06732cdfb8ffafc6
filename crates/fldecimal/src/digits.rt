// The first 18 or 19 decimal digits of a flonum. What they are is not proved: each text that is made of them is read back.
ghost use Rattle.std.specs.Prelude.{◌*◌, ◌^◌, ◌<◌, ◌≤◌};
ghost use Rattle.fltext.specs.Inner.{Cleared};

use fltext::limbs::multiply_add;
use fltext::number::limb_space;
use fltext::scale::{divide_power, multiply_power};

// digits * 10^(up - down), or a little more.
#[derive(Clone, Copy)]
pub struct Leading {
    pub digits: u64,
    pub up: u64,
    pub down: u64,
    ghost few: { (up ≤ 1500) × (down ≤ 1500) },
}

// A significand and how many places it is shifted, in units of the smallest flonum.
#[derive(Clone, Copy)]
struct Shifted {
    significand: u64,
    places: u64,
    ghost small: { (significand < 2 ^ 53) × (places ≤ 2046) },
}

fn take_apart(magnitude: u64) -> Shifted
    requires { magnitude < 2 ^ 63 }
{
    let field = magnitude / 0x10_0000_0000_0000;
    let low = magnitude % 0x10_0000_0000_0000;
    if field == 0 {
        return Shifted {
            significand: low,
            places: 0,
        };
    }
    Shifted {
        significand: 0x10_0000_0000_0000 + low,
        places: field - 1,
    }
}

fn joined(low: u32, high: u32) -> u64 {
    u64::from(high) * 0x1_0000_0000 + u64::from(low)
}

// How many places ten is raised to, and 716 more, for 18 or 19 digits: 30,103 / 100,000 is the logarithm of 2.
fn estimate(s: Shifted) -> u64
    ensures { result ≤ 1500 }
{
    let bits = 64 - u64::from(s.significand.leading_zeros()) + s.places;
    (bits + 1245) * 30103 / 100000
}

fn put_scaled(s: Shifted, power: u64, x: &mut [u32])
    requires power_bound { power ≤ 1500 }
    requires cleared { Cleared 3000 x.old }
{
    let m = s.significand;
    multiply_add(x, 1, m / 0x400_0000);
    multiply_add(x, 0x400_0000, m % 0x400_0000);
    multiply_power(2, s.places, x);
    multiply_power(10, power, x);
}

pub fn leading_digits(magnitude: u64) -> Leading
    requires { magnitude < 2 ^ 63 }
{
    let s = take_apart(magnitude);
    let e = estimate(s);
    let up = e.saturating_sub(716);
    let down = 716u64.saturating_sub(e);
    let mut x = limb_space();
    put_scaled(s, down, &mut x);
    divide_power(10, up, &mut x);
    divide_power(2, 1074, &mut x);
    Leading {
        digits: joined(x[0], x[1]),
        up,
        down,
    }
}
