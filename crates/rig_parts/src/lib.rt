// One step said of the parts of a rig that the code holds, and the theorem that it is the step of the rules: see
// specs/ and proofs/. The types that these speak of:
#![tactic(auto)]

// What a step may touch, and what it changes.
pub mod change;
// What a rig keeps beside its tasks and its mail.
pub mod kept;
// What is done for each channel of a task that is born, leaves or arrives, and to what a desk keeps for a parent.
pub mod sweep;
// What a step leaves of the parts.
pub mod turn;
