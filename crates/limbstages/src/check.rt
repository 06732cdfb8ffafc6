// What is decided before a result is measured: refusals 7 and 5. A check answers the numbers that the call goes on with.
ghost use Rattle.std.specs.Prelude.{◌≡◌, ◌&&◌, nat_abs};
ghost use Rattle.outcomes.specs.Outcome as outcome;
ghost use Rattle.outcomes.specs.Refusal.{outcome_of};
ghost use Rattle.limbstages.specs.Inner.{field_of, rotation_of, new_bit_of};
ghost use Rattle.limbstages.specs.Stages.{has_limbs, is_operand, operand, natural, is_field, field, is_new_bit, new_bit};

use super::numbers::{Field, NewBit, Rotation};
use limbmeasure::is_shortest;
use outcomes::refusal::Refusal;
use words::range::within;

pub const MOST_LIMBS: usize = 1024;

// The greatest end of a field, and the greatest position of a new bit.
pub const LAST_END: i64 = 32767;

pub const LAST_BIT: i64 = 32766;

// Limbs that trim takes.
#[tactic(auto, unfolding(crate::specs::Stages::has_limbs, crate::specs::Stages::most_limbs))]
pub fn has_limbs(x: &[u32]) -> bool
    ensures { result ≡ has_limbs x.now }
{
    1 <= x.len() && x.len() <= MOST_LIMBS
}

// Limbs that every other call takes: the shortest ones, which the last two tell.
pub fn is_operand(x: &[u32]) -> bool
    ensures { result ≡ is_operand x.now }
{
    has_limbs(x) && is_shortest(x)
}

pub fn are_operands(x: &[u32], y: &[u32]) -> bool
    ensures { result ≡ is_operand x.now && is_operand y.now }
{
    is_operand(x) && is_operand(y)
}

fn is_field(start: i64, end: i64) -> bool
    ensures { result ≡ is_field start end }
{
    within(0, start, end) && end <= LAST_END
}

fn is_new_bit(position: i64, bit: i64) -> bool
    ensures { result ≡ is_new_bit position bit }
{
    within(0, position, LAST_BIT) && within(0, bit, 1)
}

// An operand.
pub fn check_operand(x: &[u32]) -> Result<(), Refusal>
    ensures { outcome_of result ≡ operand x.now (outcome.done tt) }
{
    if is_operand(x) {
        Ok(())
    } else {
        Err(Refusal::Operand)
    }
}

// Two operands.
pub fn check_operands(x: &[u32], y: &[u32]) -> Result<(), Refusal>
    ensures { outcome_of result ≡ operand x.now (operand y.now (outcome.done tt)) }
{
    if are_operands(x, y) {
        Ok(())
    } else {
        Err(Refusal::Operand)
    }
}

// A number that may not be negative.
fn natural(n: i64) -> Result<u64, Refusal>
    ensures { outcome_of result ≡ natural n (outcome.done (nat_abs n)) }
{
    u64::try_from(n).or(Err(Refusal::Domain))
}

// Start and end of a field. The test has shown that both are natural; `try_from` would be a second way out that is never taken.
fn field(start: i64, end: i64) -> Result<Field, Refusal>
    ensures { field_of result ≡ field start end (outcome.done (nat_abs start, nat_abs end)) }
{
    if !is_field(start, end) {
        return Err(Refusal::Domain);
    }
    Ok(Field {
        start: start as u64,
        end: end as u64,
    })
}

// An operand and a number that may not be negative.
pub fn check_natural(x: &[u32], n: i64) -> Result<u64, Refusal>
    ensures { outcome_of result ≡ operand x.now (natural n (outcome.done (nat_abs n))) }
{
    check_operand(x)?;
    natural(n)
}

// Two operands and a field.
pub fn check_field(x: &[u32], y: &[u32], start: i64, end: i64) -> Result<Field, Refusal>
    ensures { field_of result ≡ operand x.now (operand y.now (field start end (outcome.done (nat_abs start, nat_abs end)))) }
{
    check_operands(x, y)?;
    field(start, end)
}

// An operand, a field and a count that may not be negative.
pub fn check_rotation(x: &[u32], start: i64, end: i64, count: i64) -> Result<Rotation, Refusal>
    ensures { rotation_of result ≡ operand x.now (field start end (natural count (outcome.done (nat_abs start, (nat_abs end, nat_abs count))))) }
{
    check_operand(x)?;
    Ok(Rotation {
        field: field(start, end)?,
        count: natural(count)?,
    })
}

// An operand, a position and a new bit.
pub fn check_new_bit(x: &[u32], position: i64, bit: i64) -> Result<NewBit, Refusal>
    ensures { new_bit_of result ≡ operand x.now (new_bit position bit (outcome.done (nat_abs position, nat_abs bit))) }
{
    check_operand(x)?;
    if !is_new_bit(position, bit) {
        return Err(Refusal::Domain);
    }
    Ok(NewBit {
        position: position as u64,
        bit: bit as u32,
    })
}
