// No functions: theorems about whole runs of the fold's calls.
#![tactic(auto)]
