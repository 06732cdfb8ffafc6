// Stored rules in words: a form as Scheme writes it, and why bytes are no rule.
#![tactic(auto)]

pub mod breach;
mod groups;
mod item;
pub mod tree;
pub mod walk;
