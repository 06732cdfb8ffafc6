// The bitwise calls of the command, answered in words.
#![tactic(auto)]

pub mod bitwise;
mod explain;
pub mod rules;
pub mod trim;
