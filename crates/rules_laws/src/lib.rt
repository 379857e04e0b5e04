// The laws of the rules, as definitions and theorems: see specs/ and proofs/.
#![tactic(auto)]
