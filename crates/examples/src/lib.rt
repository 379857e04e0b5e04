// The paper's starred edges, runs with their traces, and what demand 3 says of two runs, all evaluated: see specs/ and proofs/.
#![tactic(auto)]
