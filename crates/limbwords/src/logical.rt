// The logical operations, limb by limb.
ghost use Rattle.std.specs.Prelude.{◌≡◌, ℕ, ◌-◌, ◌<◌, pos, length};
ghost use Rattle.std.specs.Int.Bits.{bit_and, bit_or};
ghost use Rattle.bits.specs.Testbit.{testbit};
ghost use Rattle.bits.specs.Logical.{bitwise, bitwise_if};
ghost use Rattle.limbwords.specs.Value.{value};
ghost use Rattle.limbwords.specs.Results.{limb_at, logic_of};

use super::limb::limb;
use super::result::Logic;

pub fn combine(by: Logic, a: u32, b: u32) -> u32
    ensures { (t : ℕ) → t < 32 → testbit (pos result) t ≡ logic_of by (testbit (pos a) t) (testbit (pos b) t) }
{
    match by {
        Logic::And => a & b,
        Logic::Ior => a | b,
        Logic::Xor => a ^ b,
        Logic::Not => !a,
    }
}

// A limb that both operands have.
pub fn common_limb(by: Logic, x: &[u32], y: &[u32], j: usize) -> u32
    requires { (j < length x.now) × (j < length y.now) }
    ensures { result ≡ limb_at (bitwise (logic_of by) (value x.now) (value y.now)) j }
{
    combine(by, x[j], y[j])
}

pub fn logical_limb(by: Logic, x: &[u32], y: &[u32], j: usize) -> u32
    requires x_nonzero { 0 < length x.now }
    requires y_nonzero { 0 < length y.now }
    ensures { result ≡ limb_at (bitwise (logic_of by) (value x.now) (value y.now)) j }
{
    combine(by, limb(x, j), limb(y, j))
}

// The bits of a where m has ones, and those of b where it has zeros.
pub fn choose(m: u32, a: u32, b: u32) -> u32
    ensures { result ≡ bit_or (bit_and m a) (bit_and (4294967295 - m) b) }
{
    (m & a) | (!m & b)
}

pub fn if_limb(x: &[u32], y: &[u32], z: &[u32], j: usize) -> u32
    requires x_nonzero { 0 < length x.now }
    requires y_nonzero { 0 < length y.now }
    requires z_nonzero { 0 < length z.now }
    ensures { result ≡ limb_at (bitwise_if (value x.now) (value y.now) (value z.now)) j }
{
    choose(limb(x, j), limb(y, j), limb(z, j))
}
