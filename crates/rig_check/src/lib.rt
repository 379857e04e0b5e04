// Refusal 9: a number in a rig outside the limits, or a plan in it that would be refused.
#![tactic(auto)]

// Numbers, pointers and offers.
pub mod limits;
// The letters.
pub mod network;
// The sets of ready tasks.
pub mod ready;
// A whole rig.
pub mod system;
// What is kept for channels.
pub mod tables;
// A task.
pub mod tasks;
