// What is counted of the bits of limbs, with contracts on the integer that they mean. What a caller must show stands in `requires`: these
// functions are for `limbs`, which checks operands.
#![tactic(auto)]

pub mod count;
