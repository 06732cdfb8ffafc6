// A buffer that text is put into, piece after piece. What is beyond its end is cut off, so that no piece is ever refused.

ghost use Rattle.std.specs.Prelude.{◌≡◌, ◌≤◌, ◌⊎◌, length, take, IfSome};
ghost use Rattle.output.specs.Put.{filled, after, Puts};

use crate::put;
use std::fmt;
use std::fmt::Write;

// The first `filled` bytes are the text.
#[derive(Drop)]
pub struct Output<'a> {
    pub bytes: &'a mut [u8],
    pub filled: usize,
    ghost inside: { filled ≤ length bytes.now },
}

impl<'a> Output<'a> {
    pub fn new(bytes: &'a mut [u8]) -> Output<'a>
        ensures empty { result.filled ≡ 0 }
        ensures same_bytes { result.bytes.now ≡ bytes.old }
    {
        Output { bytes, filled: 0 }
    }

    pub fn put(&mut self, text: &[u8])
        ensures filled { self.new.filled ≡ filled text.now self.old.bytes.now self.old.filled }
        ensures bytes { self.new.bytes.now ≡ after text.now self.old.bytes.now self.old.filled }
    {
        self.filled = put(text, self.bytes, self.filled);
    }

    // Puts the text of a value, where its type says what that is. Where the value's own `fmt` fails, and none of ours does, no text is left.
    pub fn print<T: fmt::Display + Drop>(&mut self, value: T)
        ensures { IfSome (T.output value) (λ text. Puts text self.old.bytes.now self.old.filled self.new.filled self.new.bytes.now ⊎ (self.new.filled ≡ 0)) }
    {
        match write!(self, "{value}") {
            Ok(()) => {}
            Err(_) => self.clear(),
        }
    }

    pub fn clear(&mut self)
        ensures empty { self.new.filled ≡ 0 }
        ensures same_bytes { self.new.bytes.now ≡ self.old.bytes.now }
    {
        self.filled = 0;
    }

    // The text so far.
    pub fn text(&self) -> &[u8]
        ensures { result.now ≡ take self.now.filled self.now.bytes.now }
    {
        &self.bytes[..self.filled]
    }
}

impl<'a> fmt::Write for Output<'a> {
    ghost write_str_gives = { λ before text after. Puts text before.bytes.now before.filled after.filled after.bytes.now };

    fn write_str(&mut self, text: &str) -> fmt::Result {
        self.put(text.as_bytes());
        Ok(())
    }
}
