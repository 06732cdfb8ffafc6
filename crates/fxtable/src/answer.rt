// What a call answers: a refusal number, 0 for done; two results, which are 0 where the call is refused; and the place of the argument
// that it is refused for, counted from 1, or 0 where it is done or refused for no argument. Made by `done` and `refuse` only.
ghost use Rattle.std.specs.Prelude.{◌≡◌, ℕ, pos};
ghost use Rattle.outcomes.specs.Outcome as outcome;
ghost use Rattle.fxtable.specs.Calls.{answer};
ghost use Rattle.fxtable.specs.Operations.{truth};

#[repr(C)]
#[derive(Clone, Copy, Debug, PartialEq, Eq)]
pub struct Answer {
    pub refusal: u64,
    pub first: i64,
    pub second: i64,
    pub place: u64,
}

pub fn done(first: i64, second: i64) -> Answer
    ensures { result ≡ answer (outcome.done (first, second)) }
{
    Answer {
        refusal: 0,
        first,
        second,
        place: 0,
    }
}

// By a `Refusal`, or by its number.
#[tactic(auto, unfolding(crate::specs::Calls::answer))]
pub fn refuse<R: Into<u64>>(refusal: R, place: u64) -> Answer
    ensures { (k : ℕ) × R.converts refusal k × (result ≡ answer (outcome.refused k place)) }
{
    Answer {
        refusal: refusal.into(),
        first: 0,
        second: 0,
        place,
    }
}

// 1 for yes, 0 for no.
pub fn question(yes: bool) -> Answer
    ensures { result ≡ answer (outcome.done (truth yes, pos 0)) }
{
    done(yes as i64, 0)
}
