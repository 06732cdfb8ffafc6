// What a call answers that writes nothing: a refusal number, 0 for done, and a number, 0 where the call is refused.
ghost use Rattle.std.specs.Prelude.{◌≡◌};
ghost use Rattle.outcomes.specs.Number.{number};
ghost use Rattle.outcomes.specs.Refusal.{outcome_of};

use crate::refusal::Refusal;

#[repr(C)]
#[derive(Drop)]
pub struct Number {
    pub refusal: u64,
    pub value: i64,
}

impl From<Result<i64, Refusal>> for Number {
    ghost from_gives = { λ answer n. n ≡ number (outcome_of answer) };

    #[tactic(auto, unfolding(crate::specs::Refusal::outcome_of, crate::specs::Number::number))]
    fn from(answer: Result<i64, Refusal>) -> Number {
        match answer {
            Ok(value) => Number { refusal: 0, value },
            Err(refusal) => Number {
                refusal: refusal.into(),
                value: 0,
            },
        }
    }
}
