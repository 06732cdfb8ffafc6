// The fixnum operations on numbers, by families of codes: comparisons, sums and products, division, sums with a carry.
#![tactic(auto)]

pub mod arithmetic;
pub mod carry;
mod chain;
pub mod compare;
pub mod division;
