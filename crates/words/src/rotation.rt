// A field of a word rotated where it stands, by masks: there is no branch, and nothing depends on the sign. The count of a rotation.
ghost use Rattle.std.specs.Prelude.{◌≡◌, cond, ◌*◌, ◌-◌, ◌%◌, ◌≤◌, ◌<◌, ◌^◌, eqb, pos};
ghost use Rattle.bits.specs.Shift.{shift_right};
ghost use Rattle.bits.specs.Division.{mod_ℕ};
ghost use Rattle.bits.specs.Field.{rotate_bit_field};

use super::field::shifted;
use super::logical::{and, ior, xor};
use super::sign::power;

// Ones from one position up to, but not at, another.
fn ones(start: u64, end: u64) -> u64
    requires { (start ≤ end) × (end < 64) }
    ensures { result ≡ (2 ^ (end - start) - 1) * 2 ^ start }
{
    power(end) - power(start)
}

// The field of x, where it stands.
fn part(x: i64, start: u64, end: u64) -> u64
    requires { (start ≤ end) × (end < 64) }
    ensures { result ≡ mod_ℕ (shift_right x start) (2 ^ (end - start)) * 2 ^ start }
{
    and(x, ones(start, end) as i64) as u64
}

// x with its field rotated by c towards the high end: the bits below end - c go up by c, and the c bits above them come down.
//
//     start 2, end 7, c 2     x         h g f e d c b a
//                             result    h e d c g f b a
pub fn rotate_bit_field(x: i64, start: u64, end: u64, c: u64) -> i64
    requires { (start ≤ end) × (end < 64) × (c ≤ end - start) }
    ensures { result ≡ rotate_bit_field x start end (pos c) }
{
    let middle = end - c;
    let rest = xor(x, part(x, start, end) as i64);
    let up = shifted(part(x, start, middle), c);
    let down = part(x, middle, end) >> (middle - start);
    ior(rest, (up + down) as i64)
}

// A count below the size of the field, with the same effect. An empty field has none, and is rotated by 0.
pub fn reduced(count: u64, size: u64) -> u64
    ensures { result ≡ cond (eqb size 0) 0 (count % size) }
{
    if size == 0 { 0 } else { count % size }
}
