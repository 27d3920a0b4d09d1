// The demands, and every other theorem over the definitions that no code needs. It has no code: its theorems are in proofs/.

#![tactic(auto)]
