// What every call says of its outcome and of the buffer that it writes (specs/), with the laws of these definitions (proofs/), and the
// answer of a call whose outcome is one number.
#![tactic(auto)]

pub mod number;
pub mod refusal;
