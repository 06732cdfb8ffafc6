// The answer of a call that writes an integer, from how many limbs it has written or why it is refused.
ghost use Rattle.std.specs.Prelude.{◌≡◌};
ghost use Rattle.limbstages.specs.Buffer.{written_of};

use super::Written;
use outcomes::refusal::Refusal;

impl From<Result<usize, Refusal>> for Written {
    ghost from_gives = { λ answer w. w ≡ written_of answer };

    #[tactic(auto, unfolding(crate::specs::Buffer::written_of))]
    fn from(answer: Result<usize, Refusal>) -> Written {
        match answer {
            Ok(n) => Written {
                refusal: 0,
                length: n as u64,
            },
            Err(refusal) => Written {
                refusal: refusal.into(),
                length: 0,
            },
        }
    }
}
