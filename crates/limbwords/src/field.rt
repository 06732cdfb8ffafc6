// The operations on fields, limb by limb.
ghost use Rattle.std.specs.Prelude.{◌≡◌, cond, ℕ, ◌+◌, ◌*◌, ◌-◌, ◌<◌, ◌≤◌, ◌^◌, pos, length};
ghost use Rattle.bits.specs.Testbit.{testbit};
ghost use Rattle.bits.specs.Field.{in_field, bit_field, copy_bit_field, rotate_bit_field, reverse_bit_field};
ghost use Rattle.limbwords.specs.Value.{value};
ghost use Rattle.limbwords.specs.Results.{limb_at};

use super::limb::{limb, window, window_below};
use super::splice::splice_at;
use words::reverse::reverse_word;

pub fn field_limb(x: &[u32], start: u64, end: u64, j: usize) -> u32
    requires x_nonzero { 0 < length x.now }
    requires start_le_end { (start ≤ end) × (end < 2 ^ 32) }
    requires j_bound { j < 2 ^ 32 }
    ensures { result ≡ limb_at (bit_field (value x.now) start end) j }
{
    splice_at(window(x, start + 32 * (j as u64)), 0, j, end - start)
}

// Limb j with what stands inside a field and what stands outside it.
fn lay(inside: u32, outside: u32, start: u64, end: u64, j: usize) -> u32
    requires start_le_end { (start ≤ end) × (end < 2 ^ 32) }
    requires j_bound { j < 2 ^ 32 }
    ensures { (t : ℕ) → t < 32 → testbit (pos result) t ≡ cond (in_field start end (32 * j + t)) (testbit (pos inside) t) (testbit (pos outside) t) }
{
    splice_at(outside, splice_at(inside, outside, j, end), j, start)
}

pub fn copy_field_limb(x: &[u32], y: &[u32], start: u64, end: u64, j: usize) -> u32
    requires x_nonzero { (0 < length x.now) × (0 < length y.now) }
    requires start_le_end { (start ≤ end) × (end < 2 ^ 32) }
    requires j_bound { j < 2 ^ 32 }
    ensures { result ≡ limb_at (copy_bit_field (value x.now) start end (value y.now)) j }
{
    lay(
        window_below(y, 32 * (j as u64), start),
        limb(x, j),
        start,
        end,
        j,
    )
}

// A rotation moves the upper `by` bits of the field to its low end, and the others up by as many.
pub fn rotate_limb(x: &[u32], start: u64, end: u64, by: u64, j: usize) -> u32
    requires x_nonzero { 0 < length x.now }
    requires start_le_end { ((start ≤ end) × (end < 2 ^ 32)) × (by ≤ end - start) }
    requires j_bound { j < 2 ^ 32 }
    ensures { result ≡ limb_at (rotate_bit_field (value x.now) start end (pos by)) j }
{
    let at = 32 * (j as u64);
    let upper = window(x, at + (end - start - by));
    let others = window_below(x, at, by);
    lay(
        splice_at(upper, others, j, start + by),
        limb(x, j),
        start,
        end,
        j,
    )
}

// A limb's bits in the opposite order: those of a word that has them in its upper half. (So the compiled code works on 32 bits.)
fn mirror(w: u32) -> u32
    ensures { (t : ℕ) → t < 32 → testbit (pos result) t ≡ testbit (pos w) (31 - t) }
{
    (reverse_word(u64::from(w) * 0x1_0000_0000) % 0x1_0000_0000) as u32
}

pub fn reverse_limb(x: &[u32], start: u64, end: u64, j: usize) -> u32
    requires x_nonzero { 0 < length x.now }
    requires start_le_end { (start ≤ end) × (end < 2 ^ 32) }
    requires j_bound { j < 2 ^ 32 }
    ensures { result ≡ limb_at (reverse_bit_field (value x.now) start end) j }
{
    let mirrored = mirror(window_below(x, start + end, 32 * (j as u64) + 32));
    lay(mirrored, limb(x, j), start, end, j)
}
