// Why a call is refused.

ghost use Rattle.std.specs.Prelude.{◌≡◌};
ghost use Rattle.outcomes.specs.Refusal.{code_of};

// Each has the number that a C caller is told; 0 is for a call that is done.
#[derive(Clone, Copy, Debug, PartialEq, Eq)]
pub enum Refusal {
    Width,
    Code,
    Count,
    NotFixnum,
    Domain,
    Overflow,
    Operand,
    Capacity,
    NotOpen,
    BadRule,
}

impl From<Refusal> for u64 {
    ghost from_gives = { λ r n. n ≡ code_of r };

    #[tactic(auto, unfolding(crate::specs::Refusal::code_of))]
    fn from(refusal: Refusal) -> u64 {
        match refusal {
            Refusal::Width => 1,
            Refusal::Code => 2,
            Refusal::Count => 3,
            Refusal::NotFixnum => 4,
            Refusal::Domain => 5,
            Refusal::Overflow => 6,
            Refusal::Operand => 7,
            Refusal::Capacity => 8,
            Refusal::NotOpen => 9,
            Refusal::BadRule => 10,
        }
    }
}
