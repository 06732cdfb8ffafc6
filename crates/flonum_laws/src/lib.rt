// No functions: this crate states what holds of whole flonum calls (specs/) and proves it (proofs/).
#![tactic(auto)]
