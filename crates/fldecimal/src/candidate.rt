// One text, and whether it is the flonum.
ghost use Rattle.std.specs.Prelude.{◌≡◌, ◌≤◌, true, Ok};
ghost use Rattle.fltext.specs.Readings.{flonum_reading};
ghost use Rattle.fldecimal.specs.Spellings.{Spells};

use super::layout::put_digits;
use flonum::ieee::bits;
use fltext::read_flonum;
use output::buffer::Output;

pub fn is_negative(x: f64) -> bool {
    0x8000_0000_0000_0000 <= bits(x)
}

// Whether a text is read as x.
pub fn reads_as(x: f64, text: &[u8]) -> bool
    ensures { result ≡ true → flonum_reading text.now ≡ Ok x }
{
    match read_flonum(text) {
        Ok(y) => bits(x) == bits(y),
        Err(_) => false,
    }
}

// Puts q * 10^(up - down) with the sign of x, alone. Answers whether that is read as x.
pub fn try_number(x: f64, q: u64, up: u64, down: u64, out: &mut Output) -> bool
    requires { (up ≤ 2000) × (down ≤ 2000) }
    ensures { result ≡ true → Spells x out.new.filled out.new.bytes.now }
{
    let mut space = [0u8; 20];
    let mut digits = Output::new(&mut space);
    digits.print(q);
    out.clear();
    if is_negative(x) {
        out.put(b"-");
    }
    put_digits(digits.text(), up, down, out);
    reads_as(x, out.text())
}

// Puts a word, alone. Answers whether it is read as x.
pub fn try_word(x: f64, word: &[u8], out: &mut Output) -> bool
    ensures { result ≡ true → Spells x out.new.filled out.new.bytes.now }
{
    out.clear();
    out.put(word);
    reads_as(x, out.text())
}
