// What is derived once a run from an accepted plan: which task sends and which receives on each
// channel, each task's parent, and the number of each send.
pub mod numbers;

ghost use Rattle.std.specs.Prelude.{◌≡◌};
ghost use Rattle.plan.specs.Programs.{programs};
ghost use Rattle.plan.specs.Refusals.{plan_answer};
ghost use Rattle.plan_index.specs.ends.Derived.{ends_of};

use plan::Plan;
use plan_value::slots::pass_slots;

#[derive(Clone, Copy)]
pub struct Ends {
    // the task that sends on channel c, and the one that receives on it, at c; 0 for none
    pub senders: [u8; 129],
    pub receivers: [u8; 129],
    // the parent of task u, at u; 0 for none
    pub parents: [u8; 129],
    // the number of the send in slot s of the plan, at s; 0 where the slot has no send
    pub numbers: [u8; 4096],
}

// The ends of an accepted plan: the pass over its instructions fills the first three tables.
pub fn derive(p: Plan) -> Ends
    requires { plan_answer (programs p) ≡ Ok tt }
    ensures { result ≡ ends_of p }
{
    let tasks = p.tasks;
    let mut parents = [0u8; 129];
    let mut senders = [0u8; 129];
    let mut receivers = [0u8; 129];
    let pass = pass_slots(
        tasks,
        &p.lengths,
        &p.codes,
        &mut parents,
        &mut senders,
        &mut receivers,
    );
    let numbers = numbers::send_numbers(tasks, &p.lengths, &p.codes);
    Ends {
        senders,
        receivers,
        parents,
        numbers,
    }
}
