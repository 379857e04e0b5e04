// What holds of every rig that a run from the start reaches, as definitions and theorems: see specs/ and proofs/.
#![tactic(auto)]
