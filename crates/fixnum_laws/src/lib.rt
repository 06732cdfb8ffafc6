// No functions: this crate proves the theorems about whole fixnum calls (proofs/), and defines what they say of lists of calls (specs/).
#![tactic(auto)]
