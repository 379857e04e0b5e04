// One channel: its view, what can happen to it and what then holds, as definitions and theorems: see specs/ and proofs/.
#![tactic(auto)]
