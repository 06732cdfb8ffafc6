// The text with the fewest digits.
ghost use Rattle.std.specs.Prelude.{◌≡◌, ◌<◌, ◌≤◌, ◌++◌, true, length, drop};
ghost use Rattle.fldecimal.specs.Spellings.{Spells};

use super::candidate::{is_negative, try_number, try_word};
use super::digits::{Leading, leading_digits};
use flonum::ieee::{bits, is_finite};
use output::buffer::Output;

// The two numbers next to digits / 10^dropped, the nearer one first.
fn try_near(x: f64, d: Leading, dropped: u32, out: &mut Output) -> bool
    requires { dropped ≤ 19 }
    ensures { result ≡ true → Spells x out.new.filled out.new.bytes.now }
{
    let power = 10u64.pow(dropped);
    let lower = d.digits / power;
    let upper = lower.wrapping_add(1);
    let (near, far) = if power / 2 <= d.digits % power {
        (upper, lower)
    } else {
        (lower, upper)
    };
    let up = d.up + u64::from(dropped);
    try_number(x, near, up, d.down, out) || try_number(x, far, up, d.down, out)
}

// One digit more at a time.
fn try_all(x: f64, d: Leading, out: &mut Output) -> bool
    ensures { result ≡ true → Spells x out.new.filled out.new.bytes.now }
{
    for dropped in (0..20).rev() {
        if try_near(x, d, dropped, out) {
            return true;
        }
    }
    false
}

fn try_other(x: f64, out: &mut Output) -> bool
    ensures { result ≡ true → Spells x out.new.filled out.new.bytes.now }
{
    if x.is_nan() {
        try_word(x, b"nan", out)
    } else if is_negative(x) {
        try_word(x, b"-inf", out)
    } else {
        try_word(x, b"inf", out)
    }
}

fn try_finite(x: f64, out: &mut Output) -> bool
    ensures { result ≡ true → Spells x out.new.filled out.new.bytes.now }
{
    match bits(x) % 0x8000_0000_0000_0000 {
        0 => try_number(x, 0, 0, 0, out),
        magnitude => try_all(x, leading_digits(magnitude), out),
    }
}

// Makes the buffer's text one that is read as x, with the fewest digits, or none.
fn try_shortest(x: f64, out: &mut Output)
    ensures { Spells x out.new.filled out.new.bytes.now }
{
    let found = if is_finite(x) {
        try_finite(x, out)
    } else {
        try_other(x, out)
    };
    if !found {
        out.clear();
    }
}

// Copies a text to the start of a buffer that has room for it.
fn copy(text: &[u8], out: &mut [u8])
    requires { length text.now ≤ length out.old }
    ensures { out.new ≡ text.now ++ drop (length text.now) out.old }
{
    out[..text.len()].copy_from_slice(text);
}

// Puts a text that is read as x, with the fewest digits, at the start of out, and answers how many bytes it has; 0 where there is no room.
pub fn put_shortest(x: f64, out: &mut [u8]) -> usize
    ensures { Spells x result out.new }
{
    let mut space = [0u8; 32];
    let mut output = Output::new(&mut space);
    try_shortest(x, &mut output);
    let text = output.text();
    if out.len() < text.len() {
        return 0;
    }
    copy(text, out);
    text.len()
}
