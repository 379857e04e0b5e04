// What is done for each channel of a task that is born, leaves or arrives, and to what a desk keeps for a parent.
use plan::{ProcessorId, TaskId};
use rules::channel::Hint;
use rules::system::ParentEntry;

// A rule for one channel.
#[derive(Clone, Copy)]
pub enum CellRule {
    // the desk's pointer becomes this desk and count
    Locate(ProcessorId, u16),
    // arrival of the receiver at this desk, with this count
    ArriveReceiving(ProcessorId, u16),
    // arrival of the sender
    ArriveSending,
    // departure of the sender
    DepartSending,
}

// The tasks' channels that a step sweeps over, at a desk; what the desk keeps for the task as a parent changes beside them.
#[derive(Clone, Copy)]
pub enum Sweep {
    Nothing,
    // birth of a task
    Birth(TaskId, ProcessorId),
    // departure of a task; the pointer says where to, and the new count
    Departure(TaskId, ProcessorId, Hint),
    // arrival of a task, with its count
    Arrival(TaskId, ProcessorId, u16),
    // end of a child of this task: what the desk keeps for the task then; no channel is swept over
    Ending(TaskId, ProcessorId, ParentEntry),
}
