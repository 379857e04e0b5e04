// Demand 3 of live use: nothing here is code.
#![tactic(auto)]
