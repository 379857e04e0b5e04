// The pass over the slots of a plan value.
ghost use Rattle.std.specs.Prelude.{◌≡◌, true};
ghost use Rattle.plan.specs.Programs.{programs};
ghost use Rattle.plan_value.specs.Editions.{present_edition};
ghost use Rattle.plan_value.specs.Firsts.{NoFirsts};
ghost use Rattle.plan_value.specs.Pass.{PassOf};
ghost use Rattle.plan_value.specs.Sizes.{sizes_in};
ghost use Rattle.plan_value.specs.Slots.{plan_in};

use crate::instruction::present;
use crate::pass::{Entry, Pass, next};
use plan::Instruction;

// The instructions of all tasks, whose numbers are in range. The tables, empty before, take each task's
// parent and each channel's sender and receiver, if no instruction is refused.
pub fn pass_slots<'a>(
    tasks: u8,
    lengths: &'a [u8; 64],
    codes: &'a [u32; 4096],
    parents: &'a mut [u8; 129],
    senders: &'a mut [u8; 129],
    receivers: &'a mut [u8; 129],
) -> Pass
    requires { (sizes_in tasks lengths.now ≡ true) × NoFirsts parents.old senders.old receivers.old }
    ensures { PassOf present_edition (programs (plan_in tasks lengths.now codes.now)) result
        parents.new senders.new receivers.new }
{
    let edition = present();
    let mut p = Pass::new(tasks, true);
    for k in 0..tasks as usize {
        let count = lengths[k] as usize;
        for i in 0..count {
            let entry = Entry {
                task: k as u8 + 1,
                last: i == count - 1,
                instruction: Instruction::of(codes[64 * k + i]),
            };
            p = next(p, edition, entry, parents, senders, receivers);
            if !p.instructions {
                return p;
            }
        }
    }
    p
}
