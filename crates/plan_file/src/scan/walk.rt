// The pass over the instructions of a plan file.
ghost use Rattle.plan_file.specs.Code.{programs_in};
ghost use Rattle.plan_value.specs.Firsts.{NoFirsts};
ghost use Rattle.plan_value.specs.Pass.{PassOf};
ghost use Rattle.plan_file.specs.scan.Code.{Whole};

use crate::code::fetch;
use plan_value::instruction::Edition;
use plan_value::pass::{Entry, Pass, next};

// The instructions of tasks with these numbers of instructions, by an edition: they stand one behind the
// other. The tables take, by argument, the first task that creates, sends and receives.
pub fn walk<'a>(
    file: &'a [u8],
    edition: Edition,
    tasks: u8,
    lengths: &'a [u8; 64],
    parents: &'a mut [u8; 129],
    senders: &'a mut [u8; 129],
    receivers: &'a mut [u8; 129],
) -> Pass
    requires { Whole file.now tasks lengths.now × NoFirsts parents.old senders.old receivers.old }
    ensures { PassOf edition (programs_in file.now tasks lengths.now) result
        parents.new senders.new receivers.new }
{
    // Counted by hand: plan check was slower with `for` loops.
    let n = base::wide8(tasks);
    let mut p = Pass::new(tasks, true);
    let mut at: usize = 0;
    let mut k: usize = 0;
    while k < n {
        let count = base::wide8(lengths[k]);
        let t = k as u8 + 1;
        let mut i: usize = 0;
        while i < count {
            let x = fetch(file, at);
            let entry = Entry {
                task: t,
                last: i == count - 1,
                instruction: x,
            };
            p = next(p, edition, entry, parents, senders, receivers);
            if !p.instructions {
                return p;
            }
            at += 4;
            i += 1;
        }
        k += 1;
    }
    p
}
