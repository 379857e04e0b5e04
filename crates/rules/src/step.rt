// Steps, and why they are refused.
use crate::system::System;
use plan::{ChannelId, Refusal, Word};

// "A step is 4 bytes: kind (1 run, 2 deliver, 3 move), task, 16-bit number."
#[derive(Clone, Copy)]
pub struct Step {
    pub kind: u8,
    pub task: u8,
    pub number: u16,
}

// Why a step is refused; specs/Answers gives the number of each.
#[derive(Clone, Copy, PartialEq, Eq)]
pub enum StepRefusal {
    BadSystem,
    NoTask,
    NotReady,
    FinishWithChildren,
    NetworkFull,
    NoMessage,
    NoProcessor,
    AlreadyThere,
    MoveWithChildren,
    MovesSpent,
    BadStep,
}

// What a trace line reports of a step: its answer, and the word that was received, if one was, with its channel.
#[derive(Clone, Copy)]
pub struct Report {
    pub answer: Result<(), StepRefusal>,
    pub received: Option<(ChannelId, Word)>,
}

// What a step gives: its report, and the rig then.
#[derive(Clone, Copy)]
pub struct Stepped {
    pub report: Report,
    pub system: System,
}

// Why a step file is refused; specs/Answers gives the number of each.
#[derive(Clone, Copy)]
pub enum RunRefusal {
    Unstarted(Refusal),
    BadSteps,
    OutputShort,
}
