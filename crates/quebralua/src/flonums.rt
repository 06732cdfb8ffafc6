// The flonum calls under plain C names.
ghost use Rattle.std.specs.Prelude.{◌≡◌, [], ◌∷◌};
ghost use Rattle.std.specs.Float.{binary64};
ghost use Rattle.std.specs.Float.Ieee.{is_nan, to_bits};
ghost use Rattle.std.specs.Float.Ieee.Scale.{finite};
ghost use Rattle.flonum.specs.Rounding as meaning;
ghost use Rattle.flonum.specs.Calls as calls;
ghost use Rattle.flonum.specs.declared.answer.Answer.TheVariants.{Flonum};

use flonum::answer::FlatAnswer;
use flonum::extremes::ExtremesAnswer;

// fixnum->flonum
#[unsafe(no_mangle)]
pub extern "C" fn ql_fixnum_to_flonum(width: u64, n: i64) -> FlatAnswer
    ensures { result ≡ calls.flat (calls.fixnum_to_flonum width n) }
{
    flonum::fixnum_to_flonum(width, n).into()
}

// flfloor
#[unsafe(no_mangle)]
pub extern "C" fn ql_flfloor(x: f64) -> FlatAnswer
    ensures { result ≡ calls.flat (Flonum (meaning.flfloor x)) }
{
    flonum::flfloor(x).into()
}

// flceiling
#[unsafe(no_mangle)]
pub extern "C" fn ql_flceiling(x: f64) -> FlatAnswer
    ensures { result ≡ calls.flat (Flonum (meaning.flceiling x)) }
{
    flonum::flceiling(x).into()
}

// fltruncate
#[unsafe(no_mangle)]
pub extern "C" fn ql_fltruncate(x: f64) -> FlatAnswer
    ensures { result ≡ calls.flat (Flonum (meaning.fltruncate x)) }
{
    flonum::fltruncate(x).into()
}

// flround
#[unsafe(no_mangle)]
pub extern "C" fn ql_flround(x: f64) -> FlatAnswer
    ensures { result ≡ calls.flat (Flonum (meaning.flround x)) }
{
    flonum::flround(x).into()
}

// flabs
#[unsafe(no_mangle)]
pub extern "C" fn ql_flabs(x: f64) -> FlatAnswer
    ensures { result ≡ calls.flat (Flonum (meaning.clear_sign x)) }
{
    flonum::flabs(x).into()
}

// flnan?
#[unsafe(no_mangle)]
pub extern "C" fn ql_flnan(x: f64) -> FlatAnswer
    ensures { result ≡ calls.flat (calls.truth (is_nan x)) }
{
    flonum::flnan(x).into()
}

// flfinite?
#[unsafe(no_mangle)]
pub extern "C" fn ql_flfinite(x: f64) -> FlatAnswer
    ensures { result ≡ calls.flat (calls.truth (finite x)) }
{
    flonum::flfinite(x).into()
}

// The smallest and the largest of the first `count` of a, b, c, d
#[unsafe(no_mangle)]
pub extern "C" fn ql_flextremes(count: u64, a: f64, b: f64, c: f64, d: f64) -> ExtremesAnswer
    ensures { result ≡ calls.extremes_answer (a ∷ b ∷ c ∷ d ∷ []) count }
{
    flonum::extremes::flextremes([a, b, c, d], count)
}

// The bits of a flonum, those of the one NaN for every NaN
#[unsafe(no_mangle)]
pub extern "C" fn ql_flonum_bits(x: f64) -> u64
    ensures { result ≡ to_bits binary64 x }
{
    flonum::ieee::bits(x)
}
