// What a call of a desk's dispatcher gives.
use crate::step::{Report, Step, StepRefusal};
use crate::system::System;

// What a call gives: its answer, the delivery and the run, each with its report if one was made, and the rig then.
#[derive(Clone, Copy)]
pub struct Dispatched {
    pub answer: Result<(), StepRefusal>,
    pub delivery: Option<(Step, Report)>,
    pub run: Option<(Step, Report)>,
    pub system: System,
}
