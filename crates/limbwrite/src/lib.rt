// The limbs of a described result, written into a part of an output buffer: a writer for each operation.
#![tactic(auto)]

pub mod write;
