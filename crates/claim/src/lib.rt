// Demand 3, stated and proved about the definitions of the rules: see specs/Statement, specs/ and proofs/. What holds of moves: specs/Moves.
#![tactic(auto)]
