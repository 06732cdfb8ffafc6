// The groups of a number that offends: how many they are, whether the last adds nothing, and the number.
use rulereader::numbers::CONTINUED;

// The groups of the number that begins at an offset, unless they are more than so many.
pub fn groups_at(rule: &[u8], start: usize, most: usize) -> Option<&[u8]> {
    let rest = rule.get(start..)?;
    let last = rest.iter().take(most).position(|b| *b < CONTINUED)?;
    rest.get(..=last)
}

// Whether a number would have fewer groups in its shortest form: the last of two or more adds nothing. The sign of one that may be negative
// is the highest bit of its last group.
pub fn is_padded(groups: &[u8], signed: bool) -> bool {
    match groups {
        [.., before, last] if signed && before % 128 >= 64 => *last == 127,
        [.., _, last] => *last == 0,
        _ => false,
    }
}

// A number with a group before it. One of nine groups is below 2^63.
fn joined(n: u64, byte: u8) -> u64 {
    (n % 0x100_0000_0000_0000) * 128 + u64::from(byte % 128)
}

// The number that groups are.
pub fn value_of(groups: &[u8]) -> u64 {
    groups.iter().rev().fold(0, |n, byte| joined(n, *byte))
}
