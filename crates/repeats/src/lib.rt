// What a plan of the new edition means, and that its written-out plan means the same: see specs/ and proofs/.
#![tactic(auto)]
