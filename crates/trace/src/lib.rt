// The lines of the trace, those of steps, of marked tasks and the last one; how long a trace can be.
#![tactic(auto)]

// Lines put into the lent rest of the output.
pub mod direct;

ghost use Rattle.std.specs.Prelude.{◌≡◌, ◌+◌, ◌<◌, ◌≤◌};
ghost use Rattle.base.specs.Choice.{pick};
ghost use Rattle.rules.specs.Answers.{step_number};

use rules::step::StepRefusal;

// A digit, below ten, as a byte.
fn digit(n: usize) -> u8
    requires { n < 10 }
    ensures { result ≡ 48 + n }
{
    48 + n as u8
}

// The number of an answer.
pub fn answer_number(a: Result<(), StepRefusal>) -> u8
    ensures { result ≡ step_number a }
{
    match a {
        Ok(()) => 0,
        Err(StepRefusal::BadSystem) => 9,
        Err(StepRefusal::NoTask) => 10,
        Err(StepRefusal::NotReady) => 11,
        Err(StepRefusal::FinishWithChildren) => 12,
        Err(StepRefusal::NetworkFull) => 13,
        Err(StepRefusal::NoMessage) => 14,
        Err(StepRefusal::NoProcessor) => 15,
        Err(StepRefusal::AlreadyThere) => 16,
        Err(StepRefusal::MoveWithChildren) => 17,
        Err(StepRefusal::MovesSpent) => 18,
        Err(StepRefusal::BadStep) => 19,
    }
}

// A test as a number.
fn flag(b: bool) -> usize
    ensures { (result ≡ pick b 1 0) × (result ≤ 1) }
{
    if b { 1 } else { 0 }
}
