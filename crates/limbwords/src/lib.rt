// Limbs of 32 bits: the integer that they mean, and each limb of the result of an operation.
// What a caller must show stands in `requires`: these functions are for `limbs`, which checks operands and numbers.
#![tactic(auto)]

pub mod any;
pub mod described;
pub mod field;
pub mod limb;
pub mod logical;
pub mod result;
pub mod shift;
pub mod signed;
pub mod splice;
