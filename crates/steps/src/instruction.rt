// The next instruction of a task, carried out on what is lent or only decided.

// 13, of what an instruction would post.
mod fitted;
// The instructions that use no channel.
mod local;
// The next instruction of a task, after 10, 11 and 12.
mod next;
// A receive.
pub mod receive;
// The refusals of a run in their order; whether an answer is an acceptance.
pub mod refusal;
// An instruction of any kind.
pub mod run;
// A send.
pub mod send;
