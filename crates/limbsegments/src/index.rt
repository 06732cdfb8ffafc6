// Indices of limbs.
ghost use Rattle.std.specs.Prelude.{◌≤◌};
ghost use Rattle.limbsegments.specs.Inner.{Past};

// The first limb, from one index up to another, that does not lie whole below a position.
pub fn first_past(at: u64, from: usize, to: usize) -> usize
    requires { from ≤ to }
    ensures { Past at from to result }
{
    ((at / 32) as usize).clamp(from, to)
}
