// The operations on a field of an operand.
ghost use Rattle.std.specs.Prelude.{◌≡◌, true, ℕ, ◌+◌, ◌*◌, ◌≤◌, ◌<◌, length};
ghost use Rattle.bits.specs.Testbit.{bit_length};
ghost use Rattle.outcomes.specs.Outcome as outcome;
ghost use Rattle.limbwords.specs.Value.{value};
ghost use Rattle.limbwords.specs.Described.{described};
ghost use Rattle.limbstages.specs.Buffer.{Writes, written_of};
ghost use Rattle.limbstages.specs.Stages.{is_operand};

use super::numbers::Field;
use super::run::run;
use limbwords::described::Described;
use outcomes::refusal::Refusal;

// How many limbs are enough for an operand with a field.
fn enough_for(x: &[u32], field: Field) -> usize
    ensures { ((length x.now ≤ result) × (field.end < 32 * result)) × (result ≤ length x.now + 1024) }
{
    x.len().max((field.end / 32) as usize + 1)
}

// An operation that changes no bit of its first operand from the end of a field on. That operands are legal stays a fact of the limbs, here
// and in `shift`: a type for it would give the limbs a second name, and each call's equation would have to lead back from it.
pub fn run_field(d: &Described, field: Field, out: &mut [u32], first: u64) -> Result<usize, Refusal>
    requires x_value { is_operand d.now.x.now ≡ true }
    requires by_index { (k : ℕ) → bit_length (value d.now.x.now) ≤ k → field.end ≤ k → bit_length (described d.now) ≤ k }
    ensures { Writes (outcome.done (described d.now)) out.old first (written_of result) out.new }
{
    run(d, enough_for(d.x, field), out, first)
}
