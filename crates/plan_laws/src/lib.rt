// The laws of files and plans, as definitions and theorems: see specs/ and proofs/.
#![tactic(auto)]
