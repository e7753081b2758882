// Demand 2: what is written reads back. The laws are in proofs/.
#![tactic(auto)]
