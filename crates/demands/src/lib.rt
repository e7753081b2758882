// Demand 1, said of every public call that is lent an output: laws over the calls' definitions, and no code.
#![tactic(auto)]
