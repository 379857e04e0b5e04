// Whether a rig is at rest, so that there is nothing left to call for.
ghost use Rattle.std.specs.Prelude.{◌≡◌};
ghost use Rattle.rules.specs.Answers.{is_accepted};
ghost use Rattle.rules.specs.Steps.{step_answer, run_step, quiescent};

use rules::step::Step;
use rules::system::System;
use steps::instruction::refusal::is_accepted;

// A run of task t would be accepted.
fn can_run(r: System, t: u8) -> bool
    ensures { result ≡ is_accepted (step_answer r (run_step t)) }
{
    let s = Step {
        kind: 1,
        task: t,
        number: 0,
    };
    is_accepted(rig_step::step(r, s).report.answer)
}

// The mail is empty, and no task can run.
pub fn rests(r: System) -> bool
    ensures { result ≡ quiescent r }
{
    if r.network.used != 0 {
        return false;
    }
    for k in 0..r.plan.tasks {
        if can_run(r, k + 1) {
            return false;
        }
    }
    true
}
