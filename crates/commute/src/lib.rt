// Runs of tasks at different desks, as definitions and theorems: see specs/ and proofs/.
#![tactic(auto)]
