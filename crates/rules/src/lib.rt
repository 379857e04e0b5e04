// The types of the rig: what the definitions in specs/ speak of and the code computes with.
#![tactic(auto)]

// What is kept for a channel: pointers, offers, what the channel keeps itself.
pub mod channel;
// What two logs are answered.
pub mod log;
// What a call of a dispatcher gives.
pub mod dispatch;
// A letter, and the mail.
pub mod message;
// What a rule about one channel sees, leaves and posts.
pub mod rule;
// A step, its answer and its report.
pub mod step;
// The rig.
pub mod system;
// A task's record.
pub mod task;
// What tablets and the driver show of a task.
pub mod view;
