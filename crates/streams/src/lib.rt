// Files that are read, answers that are written, and what is said where that fails.
#![tactic(auto)]

mod cause;
pub mod files;
mod write;

// What the command reads from and writes to: the system and standard output, and standard error.
#[derive(Drop)]
pub struct Console<'a, R, E> {
    pub rt: &'a R,
    pub errors: &'a E,
}
