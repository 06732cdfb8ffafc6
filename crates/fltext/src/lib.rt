// Texts read as flonums: decimal or hexadecimal digits with or without a point and an exponent, inf and nan.
#![tactic(auto)]

mod exponent;
mod form;
pub mod limbs;
pub mod number;
mod reading;
mod rounding;
pub mod scale;

pub use exponent::Exponent;
pub use reading::read_flonum;

// Why a text is read as no flonum: it is none, or it has too many digits or too large an exponent.
#[derive(Clone, Copy, Debug, PartialEq, Eq)]
pub enum FlonumError {
    Malformed,
    TooLong,
}
