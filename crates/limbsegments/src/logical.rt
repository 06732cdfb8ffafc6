// The writers of the logical operations. The limbs that every operand has are read without a test: that is ten times as fast.
ghost use Rattle.std.specs.Prelude.{◌<◌, length};
ghost use Rattle.bits.specs.Logical.{bitwise, bitwise_if};
ghost use Rattle.limbwords.specs.Value.{value};
ghost use Rattle.limbwords.specs.Results.{limb_at, logic_of};
ghost use Rattle.outcomes.specs.Puts.{Puts};

use super::each::put_each;
use limbwords::logical::{choose, common_limb, if_limb, logical_limb};
use limbwords::result::Logic;

// The first limbs of the result, as many as the part has.
pub fn write_logical(by: Logic, x: &[u32], y: &[u32], part: &mut [u32])
    requires { (0 < length x.now) × (0 < length y.now) }
    ensures { Puts 0 (limb_at (bitwise (logic_of by) (value x.now) (value y.now))) part.old part.new 0 (length part.old) }
{
    let common = part.len().min(x.len()).min(y.len());
    put_each(|j| common_limb(by, x, y, j), &mut part[..common]);
    put_each(|j| logical_limb(by, x, y, common + j), &mut part[common..]);
}

pub fn write_if(x: &[u32], y: &[u32], z: &[u32], part: &mut [u32])
    requires { (0 < length x.now) × (0 < length y.now) × (0 < length z.now) }
    ensures { Puts 0 (limb_at (bitwise_if (value x.now) (value y.now) (value z.now))) part.old part.new 0 (length part.old) }
{
    let common = part.len().min(x.len()).min(y.len()).min(z.len());
    put_each(|j| choose(x[j], y[j], z[j]), &mut part[..common]);
    put_each(|j| if_limb(x, y, z, common + j), &mut part[common..]);
}
