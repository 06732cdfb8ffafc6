// No functions: theorems about reading and evaluating stored rules.
#![tactic(auto)]
