// Integer operations on 64-bit words, each with a contract in the meanings of `bits`. What a caller must show stands in
// `requires`: these functions are for the crates above, which check arguments.
#![tactic(auto)]

pub mod count;
pub mod field;
pub mod logical;
pub mod range;
pub mod reverse;
pub mod rotation;
pub mod sign;
