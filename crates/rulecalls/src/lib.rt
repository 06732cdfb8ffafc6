// `rule`: a stored rule read, run, and run at every width, in words.
#![tactic(auto)]

pub mod asked;
mod explain;
mod hexadecimal;
pub mod reply;
mod run;
mod widths;
