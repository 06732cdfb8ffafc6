// Integers in limbs as text in hexadecimal.
#![tactic(auto)]

ghost use Rattle.std.specs.Prelude.{◌≡◌, ◌∷◌, ◌++◌, ◌<◌, ◌≤◌, ◌+◌, ◌*◌, ◌/◌, ◌%◌, ◌^◌, length, drop};
ghost use Rattle.spelling.specs.Spellings as spellings;
ghost use Rattle.spelling.specs.Spellings.{digits, hex_length, Spells};
ghost use Rattle.text.specs.Naturals.{natural};

use text::negate::negate;

// The byte of a digit.
pub fn glyph(d: u64) -> u8
    requires { d < 16 }
    ensures { result ≡ spellings.glyph d }
{
    if d < 10 { 48 + d as u8 } else { 87 + d as u8 }
}

// Hexadecimal digit i of the number that limbs are without a sign.
fn nibble(x: &[u32], i: usize) -> u64
    requires { i < 8 * length x.now }
    ensures { result ≡ natural x.now / 16 ^ i % 16 }
{
    ((x[i / 8] >> (4 * (i % 8))) % 16) as u64
}

// How many digits it has, at least one.
fn hex_length(x: &[u32]) -> usize
    requires { (0 < length x.now) × (8 * length x.now < 2 ^ 64) }
    ensures { (result ≡ hex_length (natural x.now)) × (result ≤ 8 * length x.now) }
{
    let least = 1;
    for i in (least..8 * x.len()).rev() {
        if nibble(x, i) != 0 {
            return i + 1;
        }
    }
    least
}

// Puts its last k digits at the start of out.
fn put_nibbles(x: &[u32], k: usize, out: &mut [u8])
    requires { (k ≤ 8 * length x.now) × (k ≤ length out.old) }
    ensures { out.new ≡ digits 16 k (natural x.now) ++ drop k out.old }
{
    for i in 0..k {
        out[k - 1 - i] = glyph(nibble(x, i));
    }
}

// Puts 0x and its digits at the start of out, and answers how many bytes they are.
fn put_natural(x: &[u32], out: &mut [u8]) -> usize
    requires { (0 < length x.now) × (8 * length x.now + 2 ≤ length out.old) }
    ensures value { (result ≡ hex_length (natural x.now) + 2) × (result ≤ length out.old) }
    ensures out_after { out.new ≡ (48 ∷ 120 ∷ digits 16 (hex_length (natural x.now)) (natural x.now)) ++ drop result out.old }
{
    let k = hex_length(x);
    out[0] = b'0';
    out[1] = b'x';
    put_nibbles(x, k, &mut out[2..]);
    k + 2
}

// Puts the text of the integer that limbs are at the start of out, and answers how many bytes it has. Out needs eight bytes for each limb
// and three more: where it has fewer, or there is no limb, nothing is put and the answer is 0. The limbs are work space.
pub fn spell_limbs(x: &mut [u32], out: &mut [u8]) -> usize
    ensures { Spells x.old out.old result out.new }
{
    let n = x.len();
    if n == 0 || out.len() < 3 {
        return 0;
    }
    if (out.len() - 3) / 8 < n {
        return 0;
    }
    if x[n - 1] < 0x8000_0000 {
        return put_natural(x, out);
    }
    negate(x);
    out[0] = b'-';
    put_natural(x, &mut out[1..]) + 1
}
