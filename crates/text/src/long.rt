// A text as limbs.
ghost use Rattle.std.specs.Prelude.{◌≡◌, Ok, true, false, ◌&&◌, ◌++◌, ◌<◌, ◌≤◌, ◌+◌, ◌/◌, ◌^◌, leb, ltb, pos, nat_abs, length, take, drop};
ghost use Rattle.bits.specs.Testbit.{is_negative};
ghost use Rattle.words.specs.Sign.{with_sign};
ghost use Rattle.limbwords.specs.Value.{value, limb_count, limbs_of, shortest};
ghost use Rattle.text.specs.Numerals.{are_digits, numeral};
ghost use Rattle.text.specs.Readings.{Holds, limb_reading};
ghost use Rattle.text.specs.Inner.{Lays};

use super::ReadError;
use super::form::{Numeral, read_numeral};
use super::negate::negate;
use super::word::sum_digits;
use limbmeasure::shortest_length;

// Up to eight hexadecimal digits as a limb.
fn digits_limb(digits: &[u8]) -> u32
    requires { (are_digits 16 digits.now ≡ true) × (length digits.now ≤ 8) }
    ensures { result ≡ numeral 16 digits.now }
{
    sum_digits(16, digits).unwrap() as u32
}

// Puts the limbs of hexadecimal digits at the start of out, eight digits to a limb, and a limb 0 for the sign. Answers how many they are.
fn put_digits(digits: &[u8], out: &mut [u32]) -> usize
    requires digits_value { are_digits 16 digits.now ≡ true }
    requires digits_in_bounds { (length digits.now + 7) / 8 < length out.old }
    ensures value { result ≡ (length digits.now + 7) / 8 + 1 }
    ensures out_after { out.new ≡ limbs_of result (pos (numeral 16 digits.now)) ++ drop result out.old }
{
    let n = digits.len().div_ceil(8);
    for j in 0..n {
        let left = digits.len() - 8 * j;
        out[j] = digits_limb(&digits[left.saturating_sub(8)..left]);
    }
    out[n] = 0;
    n + 1
}

// The same of one word.
fn put_word(n: u64, out: &mut [u32])
    requires { 3 ≤ length out.old }
    ensures { out.new ≡ limbs_of 3 (pos n) ++ drop 3 out.old }
{
    out[0] = (n % 0x1_0000_0000) as u32;
    out[1] = (n / 0x1_0000_0000) as u32;
    out[2] = 0;
}

// The limbs of a natural number made those of the number with its sign. Answers the length of its shortest form.
fn set_sign(negative: bool, x: &mut [u32]) -> usize
    requires { (0 < length x.old) × (is_negative (value x.old) ≡ false) }
    ensures value { result ≡ limb_count (with_sign negative (nat_abs (value x.old))) }
    ensures x_after { take result x.new ≡ shortest (with_sign negative (nat_abs (value x.old))) }
    ensures upper_bound { result ≤ length x.new }
{
    if negative {
        negate(x);
    }
    shortest_length(x)
}

// The same of the number whose limbs are the first n.
fn sign_first(negative: bool, n: usize, out: &mut [u32]) -> usize
    requires n_nonzero { (0 < n) × (n ≤ length out.old) }
    requires out_value { is_negative (value (take n out.old)) ≡ false }
    ensures { Lays (with_sign negative (nat_abs (value (take n out.old)))) true (Ok result) out.new }
{
    set_sign(negative, &mut out[..n])
}

// Digits with a sign, in hexadecimal: there is no limit but that of the buffer.
fn read_hexadecimal(negative: bool, digits: &[u8], out: &mut [u32]) -> Result<usize, ReadError>
    requires { are_digits 16 digits.now ≡ true }
    ensures { Lays (with_sign negative (numeral 16 digits.now)) (leb ((length digits.now + 7) / 8 + 1) (length out.old)) result out.new }
{
    if out.len() <= (digits.len() + 7) / 8 {
        return Err(ReadError::TooLarge);
    }
    let n = put_digits(digits, out);
    Ok(sign_first(negative, n, out))
}

// In another base, below 2^64.
fn read_bounded(
    negative: bool,
    base: u64,
    digits: &[u8],
    out: &mut [u32],
) -> Result<usize, ReadError>
    requires base_nonzero { (0 < base) × (base ≤ 16) }
    requires digits_value { are_digits base digits.now ≡ true }
    ensures { Lays (with_sign negative (numeral base digits.now)) (ltb (numeral base digits.now) (2 ^ 64) && leb 3 (length out.old)) result out.new }
{
    if out.len() < 3 {
        return Err(ReadError::TooLarge);
    }
    let n = sum_digits(base, digits).ok_or(ReadError::TooLarge)?;
    put_word(n, out);
    Ok(sign_first(negative, 3, out))
}

// Puts the shortest limbs of the integer that a text is at the start of out. Limbs after them are work space.
pub fn read_limbs(text: &[u8], out: &mut [u32]) -> Result<usize, ReadError>
    ensures value { result ≡ limb_reading text.now (length out.old) }
    ensures holds { Holds text.now result out.new }
{
    let Numeral {
        negative,
        base,
        digits,
    } = read_numeral(text)?;
    if base == 16 {
        read_hexadecimal(negative, digits, out)
    } else {
        read_bounded(negative, base, digits, out)
    }
}
