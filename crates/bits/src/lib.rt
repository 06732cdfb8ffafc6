// No functions: this crate defines what the operations mean on the integers (specs/) and proves their laws (proofs/).
#![tactic(auto)]
