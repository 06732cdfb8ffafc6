// Digits with their point in its place, or with an exponent: from 10^16 on, where a whole number of so many digits would not be exact, and below
// 10^-6.
ghost use Rattle.std.specs.Prelude.{◌≤◌, length};

use output::buffer::Output;

// Zeros, up to 21.
fn put_zeros(n: u64, out: &mut Output)
    requires { n ≤ 21 }
{
    out.put(&[b'0'; 21][..n as usize]);
}

// Digits, zeros and a point.
fn put_whole(digits: &[u8], zeros: u64, out: &mut Output)
    requires { zeros ≤ 21 }
{
    out.put(digits);
    put_zeros(zeros, out);
    out.put(b".0");
}

// Digits with a point after some of them.
fn put_mixed(digits: &[u8], whole: usize, out: &mut Output)
    requires { whole ≤ length digits.now }
{
    let (whole, fraction) = digits.split_at(whole);
    out.put(whole);
    out.put(b".");
    out.put(fraction);
}

// A point, zeros and digits.
fn put_fraction(digits: &[u8], zeros: u64, out: &mut Output)
    requires { zeros ≤ 21 }
{
    out.put(b"0.");
    put_zeros(zeros, out);
    out.put(digits);
}

// Digits with a point after the first, if there are more.
fn put_leading(digits: &[u8], out: &mut Output) {
    if digits.len() < 2 {
        out.put(digits);
    } else {
        put_mixed(digits, 1, out);
    }
}

// Digits with a point after the first, and an exponent.
fn put_scientific(digits: &[u8], sign: &[u8], exponent: u64, out: &mut Output) {
    put_leading(digits, out);
    out.put(b"e");
    out.put(sign);
    out.print(exponent);
}

// The number of some digits times 10^(up - down).
pub fn put_digits(digits: &[u8], up: u64, down: u64, out: &mut Output)
    requires { (up ≤ 2000) × (down ≤ 2000) }
{
    let count = digits.len() as u64;
    let whole = count.wrapping_add(up);
    if whole <= down {
        let zeros = down - whole;
        if zeros < 6 {
            put_fraction(digits, zeros, out);
        } else {
            put_scientific(digits, b"-", zeros + 1, out);
        }
        return;
    }
    let point = whole - down;
    if 16 < point {
        put_scientific(digits, b"", point - 1, out);
    } else if count <= point {
        put_whole(digits, point - count, out);
    } else {
        put_mixed(digits, point as usize, out);
    }
}
