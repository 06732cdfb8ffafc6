// The smallest and the largest of one to four flonums.
ghost use Rattle.std.specs.Prelude.{◌≡◌};
ghost use Rattle.std.specs.Float.Ieee.{lt};
ghost use Rattle.flonum.specs.Extremes as meaning;
ghost use Rattle.flonum.specs.Extremes.{kept, above};
ghost use Rattle.flonum.specs.Calls as calls;

use super::ieee::{one_nan, the_nan};
use outcomes::refusal::Refusal;

#[repr(C)]
#[derive(Clone, Copy)]
pub struct Extremes {
    pub smallest: f64,
    pub largest: f64,
}

#[repr(C)]
#[derive(Clone, Copy)]
pub struct ExtremesAnswer {
    pub refusal: u64,
    pub values: Extremes,
}

// Not f64::min: among equals, as 0 and -0, the earlier is kept (`kept`).
fn smaller(old: f64, x: f64) -> f64
    ensures { result ≡ kept lt old x }
{
    if x < old { x } else { old }
}

fn larger(old: f64, x: f64) -> f64
    ensures { result ≡ kept above old x }
{
    if old < x { x } else { old }
}

fn extend(e: Extremes, x: f64) -> Extremes
    ensures { result ≡ meaning.extend e x }
{
    if x.is_nan() {
        return Extremes {
            smallest: the_nan(),
            largest: the_nan(),
        };
    }
    Extremes {
        smallest: smaller(e.smallest, x),
        largest: larger(e.largest, x),
    }
}

fn is_count(count: u64) -> bool
    ensures { result ≡ calls.is_count count }
{
    matches!(count, 1..=4)
}

// The arguments from the count on have no influence.
pub fn flextremes(args: [f64; 4], count: u64) -> ExtremesAnswer
    ensures { result ≡ calls.extremes_answer args count }
{
    if !is_count(count) {
        return ExtremesAnswer {
            refusal: Refusal::Count.into(),
            values: Extremes {
                smallest: 0.0,
                largest: 0.0,
            },
        };
    }
    let first = one_nan(args[0]);
    let mut e = Extremes {
        smallest: first,
        largest: first,
    };
    // By index, since a slice of the arguments keeps them in memory: that took 1.4 times as long.
    for i in 1..count as usize {
        e = extend(e, args[i]);
    }
    ExtremesAnswer {
        refusal: 0,
        values: e,
    }
}
