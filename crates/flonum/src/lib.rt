// Flonum calls of R6RS over 64-bit IEEE numbers.
#![tactic(auto)]

ghost use Rattle.std.specs.Prelude.{◌≡◌, is_nan};
ghost use Rattle.std.specs.Float.Ieee.Scale.{finite};
ghost use Rattle.flonum.specs.Rounding as meaning;
ghost use Rattle.flonum.specs.Calls as calls;
ghost use Rattle.flonum.specs.declared.answer.Answer.TheVariants.{Flonum};

pub mod answer;
pub mod extremes;
pub mod ieee;
pub mod rounding;

use answer::Answer;
use fxtable::width::is_width;
use ieee::{is_finite, without_sign};
use outcomes::refusal::Refusal;
use rounding::{Rounding, rounded};
use words::sign::is_fixnum;

// fixnum->flonum. Refusals in this order: 1 for the width, 4 for a number that is no fixnum at the width.
pub fn fixnum_to_flonum(width: u64, n: i64) -> Answer
    ensures { result ≡ calls.fixnum_to_flonum width n }
{
    if !is_width(width) {
        return Answer::Refused(Refusal::Width.into());
    }
    if !is_fixnum(width, n) {
        return Answer::Refused(Refusal::NotFixnum.into());
    }
    Answer::Flonum(std::num::nearest_i64_to_f64(n))
}

// flfloor
pub fn flfloor(x: f64) -> Answer
    ensures { result ≡ Flonum (meaning.flfloor x) }
{
    Answer::Flonum(rounded(Rounding::Floor, x))
}

// flceiling
pub fn flceiling(x: f64) -> Answer
    ensures { result ≡ Flonum (meaning.flceiling x) }
{
    Answer::Flonum(rounded(Rounding::Ceiling, x))
}

// fltruncate
pub fn fltruncate(x: f64) -> Answer
    ensures { result ≡ Flonum (meaning.fltruncate x) }
{
    Answer::Flonum(rounded(Rounding::Truncate, x))
}

// flround
pub fn flround(x: f64) -> Answer
    ensures { result ≡ Flonum (meaning.flround x) }
{
    Answer::Flonum(rounded(Rounding::Round, x))
}

// flabs
pub fn flabs(x: f64) -> Answer
    ensures { result ≡ Flonum (meaning.clear_sign x) }
{
    Answer::Flonum(without_sign(x))
}

// flnan?
pub fn flnan(x: f64) -> Answer
    ensures { result ≡ calls.truth (is_nan x) }
{
    Answer::from(x.is_nan())
}

// flfinite?
pub fn flfinite(x: f64) -> Answer
    ensures { result ≡ calls.truth (finite x) }
{
    Answer::from(is_finite(x))
}
