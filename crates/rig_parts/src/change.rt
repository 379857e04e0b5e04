// What a step changes.
use crate::sweep::Sweep;
use plan::{ChannelId, ProcessorId, TaskId};
use rules::rule::Outcome;

// What a step may touch: up to two tasks, and one channel at one desk; 0 is none. Where a step is about
// a channel, the tasks are its ends.
#[derive(Clone, Copy)]
pub struct Scope {
    pub sender: TaskId,
    pub receiver: TaskId,
    pub channel: ChannelId,
    pub processor: ProcessorId,
}

// What an accepted step leaves there, and what it does for each channel of a task.
#[derive(Clone, Copy)]
pub struct Change {
    pub scope: Scope,
    pub outcome: Outcome,
    pub sweep: Sweep,
}
