// Whether a plan is refused, 3 to 6, in one pass over its instructions; of a plan value, 2 to 6.
#![tactic(auto)]

// 3: the test of one instruction, by the edition of the plan file.
pub mod instruction;
// What one instruction more says of a create, or of an end of a channel.
mod marks;
// The pass, one instruction after the other, and what it answers.
pub mod pass;
// 2 of a plan value.
mod sizes;
// The pass over the slots of a plan value.
pub mod slots;

ghost use Rattle.std.specs.Prelude.{◌≡◌};
ghost use Rattle.plan.specs.Programs.{programs};
ghost use Rattle.plan.specs.Refusals.{plan_answer};
ghost use Rattle.plan_value.specs.Slots.{plan_in};

use plan::{Plan, Refusal};

// The answer about the plan with these slots: each number is tested over the whole plan before the next.
pub fn check_slots<'a>(
    tasks: u8,
    lengths: &'a [u8; 64],
    codes: &'a [u32; 4096],
) -> Result<(), Refusal>
    ensures { result ≡ plan_answer (programs (plan_in tasks lengths.now codes.now)) }
{
    if !sizes::sizes_ok(tasks, lengths) {
        return Err(Refusal::BadLayout);
    }
    let mut parents = [0u8; 129];
    let mut senders = [0u8; 129];
    let mut receivers = [0u8; 129];
    let p = slots::pass_slots(
        tasks,
        lengths,
        codes,
        &mut parents,
        &mut senders,
        &mut receivers,
    );
    pass::answer(p, &parents)
}

// The answer about a plan value.
pub fn check(p: Plan) -> Result<(), Refusal>
    ensures { result ≡ plan_answer (programs p) }
{
    check_slots(p.tasks, &p.lengths, &p.codes)
}
