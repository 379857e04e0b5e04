// An accepted step leaves a rig that refusal 9 accepts, as definitions and theorems: see specs/ and proofs/.
#![tactic(auto)]
