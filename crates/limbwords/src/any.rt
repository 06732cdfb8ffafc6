// A limb of a described result, at any index.
ghost use Rattle.std.specs.Prelude.{◌≡◌, ◌<◌, ◌^◌};
ghost use Rattle.limbwords.specs.Described.{described};
ghost use Rattle.limbwords.specs.Results.{limb_at};

use super::described::Described;
use super::field::{copy_field_limb, field_limb, reverse_limb, rotate_limb};
use super::logical::{if_limb, logical_limb};
use super::result::Operation;
use super::shift::{shift_left_limb, shift_right_limb};

#[tactic(auto, unfolding(crate::specs::Results::Proper, crate::specs::Results::meaning))]
pub fn limb_of(d: &Described, j: usize) -> u32
    requires { j < 2 ^ 32 }
    ensures { result ≡ limb_at (described d.now) j }
{
    match d.operation {
        Operation::Logical(by) => logical_limb(by, d.x, d.y, j),
        Operation::If => if_limb(d.x, d.y, d.z, j),
        Operation::ShiftLeft { by } => shift_left_limb(d.x, by, j),
        Operation::ShiftRight { by } => shift_right_limb(d.x, by, j),
        Operation::Field { start, end } => field_limb(d.x, start, end, j),
        Operation::CopyField { start, end } => copy_field_limb(d.x, d.y, start, end, j),
        Operation::Rotate { start, end, by } => rotate_limb(d.x, start, end, by, j),
        Operation::Reverse { start, end } => reverse_limb(d.x, start, end, j),
    }
}
