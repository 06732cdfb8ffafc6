// The stages of a fixnum call that look at its arguments: which is the first that is no fixnum, or outside its domain; and what every
// family of operations needs after them: a fold of the arguments, and results that may be no fixnum.
#![tactic(auto)]

pub mod domains;
pub mod fixnums;
pub mod fold;
pub mod overflow;
