// The widths that are accepted, and the fixnums of a width.
ghost use Rattle.std.specs.Prelude.{◌≡◌, ◌&&◌};
ghost use Rattle.bits.specs.Testbit.{fits};
ghost use Rattle.fxtable.specs.Domains.{is_width};

use words::sign;

pub const LEAST_WIDTH: u64 = 24;

pub const LARGEST_WIDTH: u64 = 64;

pub fn is_width(width: u64) -> bool
    ensures { result ≡ is_width width }
{
    LEAST_WIDTH <= width && width <= LARGEST_WIDTH
}

// Whether the width is accepted, and x is a fixnum at it.
pub fn is_fixnum(width: u64, x: i64) -> bool
    ensures { result ≡ is_width width && fits width x }
{
    if is_width(width) {
        sign::is_fixnum(width, x)
    } else {
        false
    }
}
