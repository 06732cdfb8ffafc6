// The fold under plain C names. The record is the caller's, and is changed in place: each function copies it out, hands it to the fold by
// value, and stores what comes back.
ghost use Rattle.std.specs.Prelude.{◌≡◌};
ghost use Rattle.outcomes.specs.Number.{number};
ghost use Rattle.fold.specs.Fold.{settings};
ghost use Rattle.fold.specs.Calls.{opening, folding, folding_of, read_outcome, joining};

use fold::{Fold, Opened, chunk, join, open, read};
use outcomes::number::Number;
use outcomes::refusal::Refusal;

// Opens the record with these settings
#[unsafe(no_mangle)]
#[tactic(auto, unfolding(fold::specs::Calls::opening_of, fold::specs::Calls::opened_as))]
pub extern "C" fn ql_fold_open(
    fold: &mut Fold,
    width: u64,
    start: i64,
    end: i64,
    count: i64,
    accumulator: i64,
) -> Opened
    ensures { (result ≡ (opening (settings width start end count accumulator)).opened) × (fold.new ≡ (opening (settings width start end count accumulator)).fold) }
{
    match open(width, start, end, count, accumulator) {
        Ok(opened) => {
            *fold = opened;
            Opened {
                refusal: 0,
                place: 0,
            }
        }
        Err(refused) => {
            *fold = Fold::default();
            Opened {
                refusal: refused.refusal.into(),
                place: refused.place.unwrap_or(0),
            }
        }
    }
}

// The record after a call, and the refusal number
#[tactic(auto, unfolding(fold::specs::Calls::folding_of, fold::specs::Calls::after))]
fn store(fold: &mut Fold, answer: Result<Fold, Refusal>) -> u64
    ensures { (result ≡ (folding_of fold.old answer).refusal) × (fold.new ≡ (folding_of fold.old answer).fold) }
{
    match answer {
        Ok(after) => {
            *fold = after;
            0
        }
        Err(refusal) => refusal.into(),
    }
}

// Folds the bytes of a chunk into the record
#[unsafe(no_mangle)]
pub extern "C" fn ql_fold_chunk(fold: &mut Fold, bytes: &[u8]) -> u64
    ensures { (result ≡ (folding fold.old bytes.now).refusal) × (fold.new ≡ (folding fold.old bytes.now).fold) }
{
    let answer = chunk(*fold, bytes);
    store(fold, answer)
}

// Joins a piece of `length` bytes, which was folded by itself from 0
#[unsafe(no_mangle)]
pub extern "C" fn ql_fold_join(fold: &mut Fold, piece: i64, length: u64) -> u64
    ensures { (result ≡ (joining fold.old piece length).refusal) × (fold.new ≡ (joining fold.old piece length).fold) }
{
    let answer = join(*fold, piece, length);
    store(fold, answer)
}

// The accumulator
#[unsafe(no_mangle)]
pub extern "C" fn ql_fold_read(fold: &Fold) -> Number
    ensures { result ≡ number (read_outcome fold.now) }
{
    read(*fold).into()
}
