// The shifts of an operand, by an unsigned distance.
ghost use Rattle.std.specs.Prelude.{◌≡◌, true, cond, ◌+◌, ◌/◌, ◌≤◌, ◌<◌, ltb, length};
ghost use Rattle.bits.specs.Shift as shifts;
ghost use Rattle.outcomes.specs.Outcome as outcome;
ghost use Rattle.limbwords.specs.Value.{value};
ghost use Rattle.limbstages.specs.Buffer.{Writes, written_of};
ghost use Rattle.limbstages.specs.Stages.{is_operand, sized};

use super::check::MOST_LIMBS;
use super::run::{run, store};
use limbmeasure::measure;
use limbwords::described::Described;
use limbwords::result::Operation;
use outcomes::refusal::Refusal;

const MOST_BITS: u64 = 32768;

// A distance that is as good as any beyond it.
fn capped(by: u64) -> u64
    ensures { result ≡ cond (ltb by 32768) by 32768 }
{
    if by < MOST_BITS { by } else { MOST_BITS }
}

// How many limbs are enough for an operand that is shifted right.
fn enough_right(x: &[u32], by: u64) -> usize
    requires x_nonzero { 0 < length x.now }
    requires by_bound { by ≤ 32768 }
    ensures { ((0 < result) × (result ≤ length x.now)) × (length x.now ≤ result + by / 32) }
{
    let gone = (by / 32) as usize;
    if gone < x.len() { x.len() - gone } else { 1 }
}

// A distance beyond every bit of an operand leaves its sign.
pub fn shift_right(x: &[u32], by: u64, out: &mut [u32], first: u64) -> Result<usize, Refusal>
    requires { is_operand x.now ≡ true }
    ensures { Writes (outcome.done (shifts.shift_right (value x.now) by)) out.old first (written_of result) out.new }
{
    let distance = capped(by);
    let operation = Operation::ShiftRight { by: distance };
    let d = Described {
        operation,
        x,
        y: x,
        z: x,
    };
    run(&d, enough_right(x, distance), out, first)
}

// A distance beyond the largest length moves everything but 0 past it.
pub fn shift_left(x: &[u32], by: u64, out: &mut [u32], first: u64) -> Result<usize, Refusal>
    requires { is_operand x.now ≡ true }
    ensures { Writes (sized (shifts.shift_left (value x.now) by)) out.old first (written_of result) out.new }
{
    let distance = capped(by);
    let operation = Operation::ShiftLeft { by: distance };
    let d = Described {
        operation,
        x,
        y: x,
        z: x,
    };
    let enough = x.len() + (distance / 32) as usize + 1;
    let n = measure(&d, enough);
    if MOST_LIMBS < n {
        return Err(Refusal::Overflow);
    }
    store(&d, n, out, first)
}
