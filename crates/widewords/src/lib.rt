// Sums, products and quotients of 64-bit words that are exact, each with a contract in the meanings of `bits`. What a caller must show
// stands in `requires`: these functions are for the crates above, which check arguments.
#![tactic(auto)]

pub mod division;
pub mod double;
pub mod parts;
pub mod sums;
pub mod wide;
