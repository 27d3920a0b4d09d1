// What the calls of the verifier promise. It has no code: its theorems are in proofs/.

#![tactic(auto)]
