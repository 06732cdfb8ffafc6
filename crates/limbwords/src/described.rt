// The description of a result: the operation and the operands.
ghost use Rattle.std.specs.Prelude.{◌<◌, length};
ghost use Rattle.limbwords.specs.Results.{Proper};

use super::result::Operation;

// An operation that takes fewer than three operands gets its first one again. None is empty, and the operation's numbers are what the limb
// functions can work with.
#[derive(Clone, Copy)]
pub struct Described<'a> {
    pub operation: Operation,
    pub x: &'a [u32],
    pub y: &'a [u32],
    pub z: &'a [u32],
    pub ghost proper: { ∥ Proper operation ∥₁ },
    pub ghost x_nonzero: { 0 < length x.now },
    pub ghost y_nonzero: { 0 < length y.now },
    pub ghost z_nonzero: { 0 < length z.now },
}
