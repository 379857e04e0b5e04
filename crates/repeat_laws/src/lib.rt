// Programs of the new edition: what is left from a place on, and how much. There is no code here.
#![tactic(auto)]
