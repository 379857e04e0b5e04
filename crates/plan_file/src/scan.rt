// 3 to 6 of a plan file whose header is in order, in one pass over its instructions.
// The pass, by an edition.
pub mod walk;

ghost use Rattle.plan_value.specs.Firsts.{NoFirsts};
ghost use Rattle.plan_file.specs.scan.Code.{Whole, CodeChecked};

use plan::Refusal;
use plan_value::instruction::present;
use plan_value::pass::answer;

// The answer about the instructions of tasks with these numbers of instructions, which stand one behind
// the other. The tables, empty before, take each task's parent and each channel's sender and receiver, if
// the plan is accepted.
pub fn check_code<'a>(
    file: &'a [u8],
    tasks: u8,
    lengths: &'a [u8; 64],
    parents: &'a mut [u8; 129],
    senders: &'a mut [u8; 129],
    receivers: &'a mut [u8; 129],
) -> Result<(), Refusal>
    requires { Whole file.now tasks lengths.now × NoFirsts parents.old senders.old receivers.old }
    ensures { CodeChecked file.now tasks lengths.now result parents.new senders.new receivers.new }
{
    let p = walk::walk(file, present(), tasks, lengths, parents, senders, receivers);
    answer(p, parents)
}
