// Whether a record is open, by the stages of code 40 on its fields. They are asked here for this code alone, without a look into the table
// of codes, since every chunk asks them.
ghost use Rattle.std.specs.Prelude.{◌≡◌, true, false, ◌-◌, ◌<◌, nat_abs, IfOk, IfErr, IfNone, IfSome};
ghost use Rattle.bits.specs.Testbit.{fits};
ghost use Rattle.outcomes.specs.Tests.{first_failed};
ghost use Rattle.fxtable.specs.Domains.{is_width, domain_tests};
ghost use Rattle.fxtable.specs.Table.{row_of};
ghost use Rattle.fold.specs.Fold.{with_accumulator, fields, rotation, is_open};
ghost use Rattle.fold.specs.Calls.{opened, opened_as, zeros};

use super::{Fold, Refused};
use fxstages::fixnums::first_not_fixnum;
use fxtable::width::is_width;
use outcomes::refusal::Refusal;
use words::range::within;

// A record that is open.
#[derive(Clone, Copy)]
pub struct Open {
    pub fold: Fold,
    ghost accepted: { is_open fold ≡ true },
}

// The record that a refused opening leaves, which is not open.
impl Default for Fold {
    ghost is_default = { λ f. f ≡ zeros };

    #[tactic(auto, unfolding(crate::specs::Calls::zeros, crate::specs::Fold::settings))]
    fn default() -> Fold {
        Fold {
            width: 0,
            start: 0,
            end: 0,
            count: 0,
            accumulator: 0,
        }
    }
}

// The place of the first field that lies outside its domain for code 40: the start is 2, the end 3 and the count 4.
fn first_outside(f: Fold) -> Option<u64>
    requires { is_width f.width ≡ true }
    ensures none { IfNone result (first_failed (domain_tests (row_of 40).domains f.width (fields f)) ≡ 0) }
    ensures some { IfSome result (λ place. (first_failed (domain_tests (row_of 40).domains f.width (fields f)) ≡ place) × (0 < place)) }
{
    let last = (f.width - 1) as i64;
    if !within(0, f.start, last) {
        return Some(2);
    }
    if !within(f.start, f.end, last) {
        return Some(3);
    }
    if !within(0, f.count, f.end - f.start) {
        return Some(4);
    }
    None
}

// Whether opening with the record's fields is done.
fn check(f: Fold) -> Result<(), Refused>
    ensures ok { IfOk result (λ _. is_open f ≡ true) }
    ensures err { IfErr result (λ e. opened_as e ≡ opened (rotation f)) }
{
    if !is_width(f.width) {
        return Err(Refused {
            refusal: Refusal::Width,
            place: None,
        });
    }
    let args = [f.accumulator, f.start, f.end, f.count];
    let place = first_not_fixnum(f.width, args, 4);
    if place != 0 {
        return Err(Refused {
            refusal: Refusal::NotFixnum,
            place: Some(place),
        });
    }
    if let Some(place) = first_outside(f) {
        return Err(Refused {
            refusal: Refusal::Domain,
            place: Some(place),
        });
    }
    Ok(())
}

impl Open {
    // Opening with the record's fields.
    pub fn new(fold: Fold) -> Result<Open, Refused>
        ensures ok { IfOk result (λ o. o.fold ≡ fold) }
        ensures err { IfErr result (λ e. opened_as e ≡ opened (rotation fold)) }
    {
        check(fold)?;
        Ok(Open { fold })
    }

    // A record that a caller says is open.
    pub fn lent(fold: Fold) -> Result<Open, Refusal>
        ensures ok { IfOk result (λ o. o.fold ≡ fold) }
        ensures err { IfErr result (λ e. (is_open fold ≡ false) × (e ≡ Refusal.NotOpen)) }
    {
        Open::new(fold).map_err(|_| Refusal::NotOpen)
    }

    // The record with another fixnum as its accumulator.
    pub fn with_accumulator(self, accumulator: i64) -> Open
        requires { fits self.fold.width accumulator ≡ true }
        ensures { result.fold ≡ with_accumulator self.fold accumulator }
    {
        Open {
            fold: Fold {
                accumulator,
                ..self.fold
            },
        }
    }

    pub fn start(self) -> u64
        ensures { result ≡ nat_abs self.fold.start }
    {
        self.fold.start.unsigned_abs()
    }

    pub fn end(self) -> u64
        ensures { result ≡ nat_abs self.fold.end }
    {
        self.fold.end.unsigned_abs()
    }

    pub fn count(self) -> u64
        ensures { result ≡ nat_abs self.fold.count }
    {
        self.fold.count.unsigned_abs()
    }

    // How many positions the field has.
    pub fn size(self) -> u64
        ensures { result ≡ nat_abs self.fold.end - nat_abs self.fold.start }
    {
        self.end() - self.start()
    }
}
