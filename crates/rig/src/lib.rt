// The start of a rig, and its rest.
#![tactic(auto)]

// Whether the rig is at rest, by the tests that a run has.
pub mod rest;
// The start of a plan: on a board, and as a rig by value.
pub mod start;
