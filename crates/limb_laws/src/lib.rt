// No functions: this crate states what holds of whole limb calls and of lists of them (specs/) and proves it (proofs/).
#![tactic(auto)]
