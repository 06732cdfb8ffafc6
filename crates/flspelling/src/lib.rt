// Flonums as text, as C prints them by %a: hexadecimal digits and a power of two.
#![tactic(auto)]

ghost use Rattle.std.specs.Prelude.{◌≡◌, ◌<◌, ◌≤◌, ◌^◌, ◌++◌, length, drop, IfOk};
ghost use Rattle.output.specs.Counts.{IsPrefixLen};
ghost use Rattle.flspelling.specs.Spellings as spellings;
ghost use Rattle.flspelling.specs.Spellings.{fraction, pointed, place, decimal, power, leading, magnitude, text_of_bits, Spells};
ghost use Rattle.flspelling.specs.Inner.{Prints};

use flonum::ieee::bits;
use outcomes::refusal::Refusal;
use output::buffer::Output;
use spelling::glyph;

// The digits of m / 2^52, from the first to the last that is not 0.
fn put_fraction(m: u64, out: &mut Output)
    requires { m < 2 ^ 52 }
    ensures { Prints (fraction 13 m) out.old out.new }
{
    let mut rest = m;
    for _ in 0..13u32 {
        if rest == 0 {
            return;
        }
        out.put(&[glyph(rest / 0x1_0000_0000_0000)]);
        rest = rest % 0x1_0000_0000_0000 * 16;
    }
}

fn put_pointed(m: u64, out: &mut Output)
    requires { m < 2 ^ 52 }
    ensures { Prints (pointed m) out.old out.new }
{
    if m == 0 {
        return out.put(b"");
    }
    out.put(b".");
    put_fraction(m, out);
}

// The last decimal digit of n.
fn last_digit(n: u64) -> u8
    ensures { result ≡ spellings.last_digit n }
{
    b'0' + (n % 10) as u8
}

fn put_place(n: u64, p: u64, out: &mut Output)
    requires { 0 < p }
    ensures { Prints (place n p) out.old out.new }
{
    if n < p {
        return out.put(b"");
    }
    out.put(&[last_digit(n / p)]);
}

fn put_decimal(n: u64, out: &mut Output)
    ensures { Prints (decimal n) out.old out.new }
{
    put_place(n, 1000, out);
    put_place(n, 100, out);
    put_place(n, 10, out);
    out.put(&[last_digit(n)]);
}

fn put_power(f: u64, out: &mut Output)
    ensures { Prints (power f) out.old out.new }
{
    if f < 1023 {
        out.put(b"p-");
        return put_decimal(1023 - f, out);
    }
    out.put(b"p+");
    put_decimal(f - 1023, out);
}

fn put_leading(e: u64, out: &mut Output)
    ensures { Prints (leading e) out.old out.new }
{
    if e == 0 {
        out.put(b"0x0");
    } else {
        out.put(b"0x1");
    }
}

fn scale(e: u64, m: u64) -> u64
    ensures { result ≡ spellings.scale e m }
{
    match (e, m) {
        (0, 0) => 1023,
        (0, _) => 1,
        (_, _) => e,
    }
}

fn put_magnitude(e: u64, m: u64, out: &mut Output)
    requires { m < 2 ^ 52 }
    ensures { Prints (magnitude e m) out.old out.new }
{
    if 2047 <= e {
        return if m == 0 {
            out.put(b"inf")
        } else {
            out.put(b"nan")
        };
    }
    put_leading(e, out);
    put_pointed(m, out);
    put_power(scale(e, m), out);
}

fn put_sign(b: u64, out: &mut Output)
    ensures { Prints (spellings.sign b) out.old out.new }
{
    if b < 0x8000_0000_0000_0000 {
        out.put(b"");
    } else {
        out.put(b"-");
    }
}

fn put_bits(b: u64, out: &mut Output)
    ensures { Prints (text_of_bits b) out.old out.new }
{
    put_sign(b, out);
    put_magnitude(b / 0x10_0000_0000_0000 % 2048, b % 0x10_0000_0000_0000, out);
}

// Copies a text to the start of a buffer that has room for it.
fn copy(text: &[u8], out: &mut [u8])
    requires { length text.now ≤ length out.old }
    ensures { out.new ≡ text.now ++ drop (length text.now) out.old }
{
    out[..text.len()].copy_from_slice(text);
}

// Puts the text of a flonum at the start of out, and answers how many bytes it has. Where out has less than 24 bytes nothing is put.
pub fn spell_flonum(x: f64, out: &mut [u8]) -> Result<usize, Refusal>
    ensures prefix_len { IfOk result (λ n. IsPrefixLen n out.new) }
    ensures spells { Spells x out.old result out.new }
{
    if out.len() < 24 {
        return Err(Refusal::Capacity);
    }
    let mut space = [0u8; 24];
    let mut output = Output::new(&mut space);
    put_bits(bits(x), &mut output);
    let text = output.text();
    copy(text, out);
    Ok(text.len())
}
