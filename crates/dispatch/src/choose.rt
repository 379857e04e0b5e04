// Calls at the desks in turn until the rig is at rest: the steps that they choose, as a step file. The rig stays on a lent board.

// The bytes of a step.
mod bytes;
// The calls.
mod calls;
// The choice from a plan file.
pub mod file;
// Whether the rig is at rest.
mod rest;
// The run of a task.
mod runs;
// The choice from the start of a plan.
mod start;
