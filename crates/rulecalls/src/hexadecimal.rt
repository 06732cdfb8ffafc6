// Bytes written in hexadecimal.
ghost use Rattle.std.specs.Prelude.{◌≤◌, length, IfOk};

use line::trouble::Expected;
use text::digit::{are_digits, digit};

const BASE: u64 = 16;

fn byte_of(pair: [u8; 2]) -> u8 {
    let [high, low] = pair.map(|c| digit(c).unwrap_or(0) % BASE);
    (high * BASE + low) as u8
}

// Puts the bytes at the start of out, and answers how many they are. What is beyond its end is cut off.
pub fn decode(digits: &[u8], out: &mut [u8]) -> Result<usize, Expected>
    ensures { IfOk result (λ n. n ≤ length out.new) }
{
    if digits.is_empty() || !are_digits(BASE, digits) {
        return Err(Expected::Rule);
    }
    let (pairs, rest) = digits.as_chunks::<2>();
    if !rest.is_empty() {
        return Err(Expected::EvenDigits);
    }
    for (byte, pair) in out.iter_mut().zip(pairs) {
        *byte = byte_of(*pair);
    }
    Ok(pairs.len().min(out.len()))
}
