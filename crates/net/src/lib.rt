// Machines whose labels commute, and a plan with no desks as such a machine: see specs/ and proofs/.
#![tactic(auto)]
