// The rig as it is read, and every accepted step as a change of what is read: see specs/ and proofs/.
#![tactic(auto)]
