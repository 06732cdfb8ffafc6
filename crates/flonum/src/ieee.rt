// NaNs, finite flonums, the sign and the bits. The logic has one NaN; compiled code has one for each payload and sign.
ghost use Rattle.std.specs.Prelude.{◌≡◌};
ghost use Rattle.std.specs.Float.Ieee as Ieee;
ghost use Rattle.std.specs.Float.{nan, binary64};
ghost use Rattle.std.specs.Float.Ieee.Scale.{finite};
ghost use Rattle.flonum.specs.Rounding.{clear_sign};

// Compiled, it has the bits 0x7FF8000000000000.
pub fn the_nan() -> f64
    ensures { result ≡ nan }
{
    0.0 / 0.0
}

// The library's, under a name that the edit infinity_is_finite turns.
pub fn is_finite(x: f64) -> bool
    ensures { result ≡ finite x }
{
    x.is_finite()
}

// x, with the one NaN in place of any.
pub fn one_nan(x: f64) -> f64
    ensures { result ≡ x }
{
    if x.is_nan() { the_nan() } else { x }
}

// The bits of a flonum. Those of a NaN are the one NaN's, whatever they are in the machine.
pub fn bits(x: f64) -> u64
    ensures { result ≡ Ieee.to_bits binary64 x }
{
    if x.is_nan() {
        0x7FF8_0000_0000_0000
    } else {
        f64::to_bits(x)
    }
}

// Not f64::abs, which leaves a NaN as it is: every NaN that a call answers is the one NaN.
pub fn without_sign(x: f64) -> f64
    ensures { result ≡ clear_sign x }
{
    if x.is_nan() {
        the_nan()
    } else {
        f64::from_bits(f64::to_bits(x) % 0x8000_0000_0000_0000)
    }
}
