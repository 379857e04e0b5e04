// One task's record, and the rules that use no channel.
#![tactic(auto)]

// A record with its place gone on, a word taken, its state changed, or a mark.
pub mod change;
// Its living children.
pub mod children;
// Create, sync, finish, set and add; what an ended letter does to a parent.
pub mod instructions;
// What a desk keeps for a parent.
pub mod parents;
// Ready tasks at a desk.
pub mod ready;
// Sets of tasks in the bits of a number.
pub mod set;
// Its state and desk.
pub mod state;
