// Texts read as integers: digits in base 10, or in base 16, 10, 8 or 2 after #x, #d, #o or #b, or 16 or 2 after 0x or 0b, with or without a sign.
#![tactic(auto)]

pub mod digit;
mod form;
mod long;
pub mod negate;
mod word;

pub use form::byte_at;
pub use long::read_limbs;
pub use word::{read_word, sum_digits};

// Why a text is read as no integer: it is none, or one that there is no room for.
#[derive(Clone, Copy, Debug, PartialEq, Eq)]
pub enum ReadError {
    Malformed,
    TooLarge,
}
