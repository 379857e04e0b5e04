// How many steps of a list get each number, as definitions and theorems: see specs/ and proofs/.
#![tactic(auto)]
