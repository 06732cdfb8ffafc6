// Why opening is refused.
ghost use Rattle.std.specs.Prelude.{◌≢◌, Some};

use outcomes::refusal::Refusal;

// The place is that of the field that it is refused for, where it is one: accumulator 1, start 2, end 3, count 4. Where it is none, the place is
// None, and never 0.
#[derive(Clone, Copy, Debug, PartialEq, Eq)]
pub struct Refused {
    pub refusal: Refusal,
    pub place: Option<u64>,
    ghost counted: { place ≢ Some 0 },
}
