// The R6RS bitwise operations on integers of up to 1,024 limbs of 32 bits, least significant first, in two's complement.
//
// An operand has the shortest limbs of its integer; `bitwise_trim` makes them of limbs that are padded. A call that writes an integer
// takes its operands, its numbers, the output buffer and the first limb to write. It writes the shortest limbs of the result from there
// on, and changes no other limb. Refusals, in this order: 7 for an operand of no limb, of more than 1,024, or of more than it needs, 5 for
// a number outside its domain, 6 for a result of more than 1,024 limbs, 8 for a buffer that is too short. A refused call changes nothing.
#![tactic(auto, using(limbstages::proofs::StageLaws::operand_lengths), unfolding(outcomes::specs::Outcome::guard, outcomes::specs::Outcome::guard_at, outcomes::specs::Refusal::outcome_of, limbstages::specs::Stages::operand, limbstages::specs::Stages::natural, crate::specs::Operations::bit_count_outcome, crate::specs::Operations::first_bit_set_outcome, crate::specs::Operations::length_outcome, crate::specs::Operations::word_outcome, crate::specs::Operations::bit_set_outcome))]

ghost use Rattle.std.specs.Prelude.{◌≡◌, true, ◌&&◌, ◌||◌};
ghost use Rattle.std.specs.Bool.{xor};
ghost use Rattle.outcomes.specs.Outcome as outcome;
ghost use Rattle.limbstages.specs.Buffer.{Writes, written_of};
ghost use Rattle.outcomes.specs.Refusal.{outcome_of};
ghost use Rattle.bits.specs.Logical.{bitwise};
ghost use Rattle.limbwords.specs.Value.{value};
ghost use Rattle.limbwords.specs.Results.{logic_of};
ghost use Rattle.limbs.specs.Operations.{not_outcome, bitwise_outcome, if_outcome, copy_bit_outcome, bit_field_outcome, copy_bit_field_outcome, shift_outcome, shift_left_outcome, shift_right_outcome, rotate_outcome, reverse_outcome, bit_count_outcome, length_outcome, first_bit_set_outcome, bit_set_outcome, word_outcome, trim_outcome};

use limbcount::count::{bit_count, bit_length, first_bit_set};
use limbmeasure::shortest_length;
use limbstages::check::{
    check_field, check_natural, check_new_bit, check_operand, check_operands, check_rotation,
    has_limbs,
};
use limbstages::field::run_field;
use limbstages::numbers::{Field, NewBit, Rotation};
use limbstages::run::{run, store, store_limbs};
use limbstages::shift::{shift_left, shift_right};
use limbwords::described::Described;
use limbwords::limb::window;
use limbwords::result::{Logic, Operation};
use limbwords::signed::{word, word_bits};
use outcomes::refusal::Refusal;
use words::rotation::reduced;

// and, ior and xor of two: built into each of the three, which is quicker by a tenth at four limbs.
#[inline(always)]
fn combine(by: Logic, x: &[u32], y: &[u32], out: &mut [u32], first: u64) -> Result<usize, Refusal>
    ensures { Writes (bitwise_outcome (logic_of by) x.now y.now) out.old first (written_of result) out.new }
{
    check_operands(x, y)?;
    let enough = x.len().max(y.len());
    let d = Described {
        operation: Operation::Logical(by),
        x,
        y,
        z: x,
    };
    run(&d, enough, out, first)
}

// bitwise-not: the complement has as many limbs as its operand
pub fn bitwise_not(x: &[u32], out: &mut [u32], first: u64) -> Result<usize, Refusal>
    ensures { Writes (not_outcome x.now) out.old first (written_of result) out.new }
{
    check_operand(x)?;
    let d = Described {
        operation: Operation::Logical(Logic::Not),
        x,
        y: x,
        z: x,
    };
    store(&d, x.len(), out, first)
}

// bitwise-and of two
#[tactic(auto, unfolding(limbwords::specs::Results::logic_of))]
pub fn bitwise_and(x: &[u32], y: &[u32], out: &mut [u32], first: u64) -> Result<usize, Refusal>
    ensures { Writes (bitwise_outcome ◌&&◌ x.now y.now) out.old first (written_of result) out.new }
{
    combine(Logic::And, x, y, out, first)
}

// bitwise-ior of two
#[tactic(auto, unfolding(limbwords::specs::Results::logic_of))]
pub fn bitwise_ior(x: &[u32], y: &[u32], out: &mut [u32], first: u64) -> Result<usize, Refusal>
    ensures { Writes (bitwise_outcome ◌||◌ x.now y.now) out.old first (written_of result) out.new }
{
    combine(Logic::Ior, x, y, out, first)
}

// bitwise-xor of two
#[tactic(auto, unfolding(limbwords::specs::Results::logic_of))]
pub fn bitwise_xor(x: &[u32], y: &[u32], out: &mut [u32], first: u64) -> Result<usize, Refusal>
    ensures { Writes (bitwise_outcome xor x.now y.now) out.old first (written_of result) out.new }
{
    combine(Logic::Xor, x, y, out, first)
}

// bitwise-if
pub fn bitwise_if(
    x: &[u32],
    y: &[u32],
    z: &[u32],
    out: &mut [u32],
    first: u64,
) -> Result<usize, Refusal>
    ensures { Writes (if_outcome x.now y.now z.now) out.old first (written_of result) out.new }
{
    check_operands(x, y)?;
    check_operand(z)?;
    let enough = x.len().max(y.len()).max(z.len());
    let d = Described {
        operation: Operation::If,
        x,
        y,
        z,
    };
    run(&d, enough, out, first)
}

// bitwise-copy-bit: the bit at a position becomes 0 or 1
pub fn bitwise_copy_bit(
    x: &[u32],
    position: i64,
    bit: i64,
    out: &mut [u32],
    first: u64,
) -> Result<usize, Refusal>
    ensures { Writes (copy_bit_outcome x.now position bit) out.old first (written_of result) out.new }
{
    let NewBit { position, bit } = check_new_bit(x, position, bit)?;
    let start = position;
    let end = position + 1;
    let d = Described {
        operation: Operation::CopyField { start, end },
        x,
        y: &[bit],
        z: x,
    };
    run_field(&d, Field { start, end }, out, first)
}

// bitwise-bit-field: the field as a number
pub fn bitwise_bit_field(
    x: &[u32],
    start: i64,
    end: i64,
    out: &mut [u32],
    first: u64,
) -> Result<usize, Refusal>
    ensures { Writes (bit_field_outcome x.now start end) out.old first (written_of result) out.new }
{
    let Field { start, end } = check_field(x, x, start, end)?;
    let enough = ((end - start) / 32) as usize + 1;
    let d = Described {
        operation: Operation::Field { start, end },
        x,
        y: x,
        z: x,
    };
    run(&d, enough, out, first)
}

// bitwise-copy-bit-field: the field gets the low bits of y
pub fn bitwise_copy_bit_field(
    x: &[u32],
    start: i64,
    end: i64,
    y: &[u32],
    out: &mut [u32],
    first: u64,
) -> Result<usize, Refusal>
    ensures { Writes (copy_bit_field_outcome x.now start end y.now) out.old first (written_of result) out.new }
{
    let field = check_field(x, y, start, end)?;
    let Field { start, end } = field;
    let d = Described {
        operation: Operation::CopyField { start, end },
        x,
        y,
        z: x,
    };
    run_field(&d, field, out, first)
}

// bitwise-arithmetic-shift: to the left by a positive distance, to the right by a negative one
pub fn bitwise_shift(
    x: &[u32],
    distance: i64,
    out: &mut [u32],
    first: u64,
) -> Result<usize, Refusal>
    ensures { Writes (shift_outcome x.now distance) out.old first (written_of result) out.new }
{
    check_operand(x)?;
    let by = distance.unsigned_abs();
    if distance < 0 {
        shift_right(x, by, out, first)
    } else {
        shift_left(x, by, out, first)
    }
}

// bitwise-arithmetic-shift-left
pub fn bitwise_shift_left(
    x: &[u32],
    distance: i64,
    out: &mut [u32],
    first: u64,
) -> Result<usize, Refusal>
    ensures { Writes (shift_left_outcome x.now distance) out.old first (written_of result) out.new }
{
    let by = check_natural(x, distance)?;
    shift_left(x, by, out, first)
}

// bitwise-arithmetic-shift-right
pub fn bitwise_shift_right(
    x: &[u32],
    distance: i64,
    out: &mut [u32],
    first: u64,
) -> Result<usize, Refusal>
    ensures { Writes (shift_right_outcome x.now distance) out.old first (written_of result) out.new }
{
    let by = check_natural(x, distance)?;
    shift_right(x, by, out, first)
}

// bitwise-rotate-bit-field: towards the high end
pub fn bitwise_rotate(
    x: &[u32],
    start: i64,
    end: i64,
    count: i64,
    out: &mut [u32],
    first: u64,
) -> Result<usize, Refusal>
    ensures { Writes (rotate_outcome x.now start end count) out.old first (written_of result) out.new }
{
    let Rotation { field, count } = check_rotation(x, start, end, count)?;
    let Field { start, end } = field;
    let by = reduced(count, end - start);
    let d = Described {
        operation: Operation::Rotate { start, end, by },
        x,
        y: x,
        z: x,
    };
    run_field(&d, field, out, first)
}

// bitwise-reverse-bit-field
pub fn bitwise_reverse(
    x: &[u32],
    start: i64,
    end: i64,
    out: &mut [u32],
    first: u64,
) -> Result<usize, Refusal>
    ensures { Writes (reverse_outcome x.now start end) out.old first (written_of result) out.new }
{
    let field = check_field(x, x, start, end)?;
    let Field { start, end } = field;
    let d = Described {
        operation: Operation::Reverse { start, end },
        x,
        y: x,
        z: x,
    };
    run_field(&d, field, out, first)
}

// bitwise-bit-count
pub fn bitwise_bit_count(x: &[u32]) -> Result<i64, Refusal>
    ensures { outcome_of result ≡ bit_count_outcome x.now }
{
    check_operand(x)?;
    Ok(bit_count(x))
}

// bitwise-length
pub fn bitwise_length(x: &[u32]) -> Result<i64, Refusal>
    ensures { outcome_of result ≡ length_outcome x.now }
{
    check_operand(x)?;
    Ok(bit_length(x) as i64)
}

// bitwise-first-bit-set
pub fn bitwise_first_bit_set(x: &[u32]) -> Result<i64, Refusal>
    ensures { outcome_of result ≡ first_bit_set_outcome x.now }
{
    check_operand(x)?;
    Ok(first_bit_set(x))
}

// bitwise-bit-set?
pub fn bitwise_bit_set(x: &[u32], position: i64) -> Result<i64, Refusal>
    ensures { outcome_of result ≡ bit_set_outcome x.now position }
{
    let at = check_natural(x, position)?;
    Ok(i64::from(window(x, at) % 2))
}

// The shortest form of limbs that may be padded, written where any other result would be.
pub fn bitwise_trim(x: &[u32], out: &mut [u32], first: u64) -> Result<usize, Refusal>
    ensures { Writes (trim_outcome x.now) out.old first (written_of result) out.new }
{
    if !has_limbs(x) {
        return Err(Refusal::Operand);
    }
    store_limbs(x, shortest_length(x), out, first)
}

// An integer as one signed 64-bit word, where it fits.
pub fn to_word(x: &[u32]) -> Result<i64, Refusal>
    ensures { outcome_of result ≡ word_outcome x.now }
{
    check_operand(x)?;
    if 64 <= bit_length(x) {
        return Err(Refusal::Overflow);
    }
    Ok(word(x))
}

// One signed 64-bit word as limbs.
pub fn from_word(v: i64, out: &mut [u32], first: u64) -> Result<usize, Refusal>
    ensures { Writes (outcome.done v) out.old first (written_of result) out.new }
{
    let limbs = [word_bits(v, 0), word_bits(v, 32)];
    store_limbs(&limbs, shortest_length(&limbs), out, first)
}
