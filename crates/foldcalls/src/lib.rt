// The running fold in the command: its settings as words give them, and what is said of them and of an identifier.
#![tactic(auto)]

pub mod answer;
mod explain;
pub mod join;
pub mod settings;
mod widths;
