// The cases that the scope paper marks: one table in specs/Marked.antt, proved under one claim in proofs/Marked.antt. There is no code here.
#![tactic(auto)]
