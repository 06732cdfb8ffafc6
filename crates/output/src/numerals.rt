// Integers as the command prints them.

use std::fmt;

// In hexadecimal after 0x, a minus in front of all.
#[derive(Clone, Copy)]
pub struct Hexadecimal(pub i64);

impl fmt::Display for Hexadecimal {
    fn fmt<W: fmt::Write>(&self, f: &mut fmt::Formatter<W>) -> fmt::Result {
        let sign = if self.0 < 0 { "-" } else { "" };
        write!(f, "{sign}{:#x}", self.0.unsigned_abs())
    }
}

// In decimal and in hexadecimal.
#[derive(Clone, Copy)]
pub struct Both(pub i64);

impl fmt::Display for Both {
    fn fmt<W: fmt::Write>(&self, f: &mut fmt::Formatter<W>) -> fmt::Result {
        write!(f, "{} {}", self.0, Hexadecimal(self.0))
    }
}
