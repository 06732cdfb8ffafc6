// The running fold: bytes taken chunk by chunk into an accumulator, which is rotated in a field and xored with each byte. The record is
// handed in and out by value.
#![tactic(auto)]

ghost use Rattle.std.specs.Prelude.{◌≡◌};
ghost use Rattle.outcomes.specs.Refusal.{outcome_of};
ghost use Rattle.fold.specs.Fold.{settings};
ghost use Rattle.fold.specs.Calls.{opening, opening_of, folding, folding_of, read_outcome, joining};

mod byte;
mod four;
mod opening;
mod piece;
mod record;
mod run;

pub use opening::Refused;
use outcomes::refusal::Refusal;
use record::Open;

// The width, the field that is rotated, the rotation's count, and the accumulator. A record is open where code 40 would accept its fields.
#[repr(C)]
#[derive(Clone, Copy, Debug, PartialEq, Eq)]
pub struct Fold {
    pub width: u64,
    pub start: i64,
    pub end: i64,
    pub count: i64,
    pub accumulator: i64,
}

// The same for C: the refusal's number, 0 for done, and the place, 0 for none.
#[repr(C)]
#[derive(Clone, Copy, Debug, PartialEq, Eq)]
pub struct Opened {
    pub refusal: u64,
    pub place: u64,
}

// The refusals are those of code 40: the width, a field that is no fixnum, and one outside its domain.
pub fn open(width: u64, start: i64, end: i64, count: i64, accumulator: i64) -> Result<Fold, Refused>
    ensures { opening_of result ≡ opening (settings width start end count accumulator) }
{
    let settings = Fold {
        width,
        start,
        end,
        count,
        accumulator,
    };
    Ok(Open::new(settings)?.fold)
}

// An empty chunk is refused too where the record is not open.
#[tactic(auto, unfolding(crate::specs::Calls::folding, crate::specs::Calls::folding_of, outcomes::specs::Refusal::code_of))]
pub fn chunk(f: Fold, bytes: &[u8]) -> Result<Fold, Refusal>
    ensures { folding_of f result ≡ folding f bytes.now }
{
    Ok(Open::lent(f)?.fold_bytes(bytes).fold)
}

// The accumulator.
#[tactic(auto, unfolding(crate::specs::Calls::read_outcome, outcomes::specs::Outcome::guard, outcomes::specs::Outcome::guard_at, outcomes::specs::Refusal::outcome_of, outcomes::specs::Refusal::code_of))]
pub fn read(f: Fold) -> Result<i64, Refusal>
    ensures { outcome_of result ≡ read_outcome f }
{
    Ok(Open::lent(f)?.fold.accumulator)
}

// A piece of so many bytes, folded from 0 by the same settings, as if its bytes came now.
#[tactic(auto, unfolding(crate::specs::Calls::joining, crate::specs::Calls::folding_of, outcomes::specs::Refusal::code_of))]
pub fn join(f: Fold, piece: i64, length: u64) -> Result<Fold, Refusal>
    ensures { folding_of f result ≡ joining f piece length }
{
    Ok(Open::lent(f)?.join(piece, length)?.fold)
}
