// An i64 taken apart into its sign and a u64, and put together again; powers of two; the range of a width.
ghost use Rattle.std.specs.Prelude.{◌≡◌, true, ◌<◌, ◌≤◌, ◌^◌, nat_abs};
ghost use Rattle.std.specs.Int.Signed.{mag};
ghost use Rattle.bits.specs.Testbit.{is_negative, fits};
ghost use Rattle.words.specs.Sign.{with_sign, of_magnitude};

pub fn is_negative(x: i64) -> bool
    ensures { result ≡ is_negative x }
{
    x < 0
}

// x, or not x where x is negative.
pub fn magnitude(x: i64) -> u64
    ensures { result ≡ mag x }
{
    if x < 0 { (!x) as u64 } else { x as u64 }
}

// The absolute value, that of -2^63 too, which cannot be negated as it is.
pub fn absolute(x: i64) -> u64
    ensures { result ≡ nat_abs x }
{
    x.unsigned_abs()
}

pub fn from_magnitude(negative: bool, m: u64) -> i64
    requires { m < 2 ^ 63 }
    ensures { result ≡ of_magnitude negative m }
{
    if negative { !(m as i64) } else { m as i64 }
}

pub fn from_absolute(negative: bool, n: u64) -> i64
    requires { fits 64 (with_sign negative n) ≡ true }
    ensures { result ≡ with_sign negative n }
{
    if negative {
        if n == 0 {
            0
        } else {
            from_magnitude(true, n - 1)
        }
    } else {
        from_magnitude(false, n)
    }
}

pub fn power(k: u64) -> u64
    requires { k < 64 }
    ensures { result ≡ 2 ^ k }
{
    1 << k
}

// Whether x is a fixnum at a width.
pub fn is_fixnum(width: u64, x: i64) -> bool
    requires { (1 ≤ width) × (width ≤ 64) }
    ensures { result ≡ fits width x }
{
    magnitude(x) < power(width - 1)
}

// Whether the integer with a sign and an absolute value is a fixnum at a width: there is one more that is negative.
pub fn absolute_fits(width: u64, negative: bool, n: u64) -> bool
    requires { (1 ≤ width) × (width ≤ 64) }
    ensures { result ≡ fits width (with_sign negative n) }
{
    let half = power(width - 1);
    n < half + u64::from(negative)
}
