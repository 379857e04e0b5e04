// What tablets and the driver show of a task.
use crate::task::TaskState;
use plan::{ProcessorId, TaskId, Word};

// A tablet's record: "number, state, desk and place". It has no field for a word or a mark.
#[derive(Clone, Copy)]
pub struct TabletView {
    pub task: TaskId,
    pub state: TaskState,
    pub processor: ProcessorId,
    pub pc: u8,
}

// The driver's record: "the same record with word and children", and how many they are.
#[derive(Clone, Copy)]
pub struct DriverView {
    pub tablet: TabletView,
    pub word: Word,
    pub children: u64,
    pub living: u32,
}
