// What is derived of a plan once: who sends, who receives, who is parent, each send's number.
#![tactic(auto)]

// The four derived of a plan value.
pub mod ends;
// Who uses what in one table of bytes, with the channels of each task linked.
pub mod user_table;
