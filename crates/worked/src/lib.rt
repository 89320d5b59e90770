// Worked batches from end to end, as theorems: no code.
#![tactic(auto)]
