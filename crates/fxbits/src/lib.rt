// The fixnum operations on bits, by families of codes: on all bits, counts, on one bit, shifts, on a field.
#![tactic(auto)]

pub mod bit;
pub mod counts;
pub mod fields;
pub mod logical;
pub mod shifts;
