// Worked batches, as data for theorems: no code.
#![tactic(auto)]
