// Flonums as decimal texts with the fewest digits that are read back as the same flonum.
#![tactic(auto)]

mod candidate;
mod digits;
mod layout;
mod shortest;

pub use shortest::put_shortest;
