// Limbs written into a part of an output buffer, from one index up to another: zeros, windows of an operand, the limbs of an
// operation one by one, and the results of the logical operations.
#![tactic(auto)]

pub mod each;
pub mod index;
pub mod logical;
pub mod segment;
