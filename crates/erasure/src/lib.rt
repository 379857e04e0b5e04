// A step of a rig without words is that of the rig, without words, as definitions and theorems: see specs/ and proofs/.
#![tactic(auto)]
