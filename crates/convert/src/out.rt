// The instructions of a file of the new edition written out, into the slots of a plan value.
ghost use Rattle.std.specs.Prelude.{◌≡◌, ◌≤◌, ◌+◌, ◌*◌, leb, length, get_or, replicate};
ghost use Rattle.base.specs.Range.{below};
ghost use Rattle.plan.specs.Repeats.{written_out, written_out_plan};
ghost use Rattle.convert.specs.Tasks.{task_in, Fine, AllFine, WrittenTask};
ghost use Rattle.convert.specs.Stages.{Filled};
ghost use Rattle.plan_file.specs.Code.{programs_in};
ghost use Rattle.plan_file.specs.scan.Code.{Whole};

use crate::spot::{Spot, is_mark, next};
use plan_file::code::fetch;
use plan_value::pass::are_some;

// The instructions of one task, which stand from a place on, put into the slots from `first` on. How many
// they are.
fn write_task<'a>(
    file: &'a [u8],
    at: usize,
    count: usize,
    first: usize,
    codes: &'a mut [u32; 4096],
) -> usize
    requires { (count ≤ 64) × (at + 4 * count ≤ length file.now) × (first + 64 ≤ 4096) × (length codes.old ≡ 4096)
        × Fine (task_in file.now at count) }
    ensures { WrittenTask (written_out (task_in file.now at count)) first codes.old result codes.new }
{
    let mut s = Spot::new();
    let mut w: usize = 0;
    while s.at < count {
        let x = fetch(file, at + 4 * s.at);
        if !is_mark(x) {
            codes[first + w] = x.code();
            w += 1;
        }
        s = next(s, x);
    }
    w
}

// The instructions of all tasks, put into empty slots, and how many each has.
pub fn write_out<'a>(
    file: &'a [u8],
    tasks: u8,
    lengths: &'a [u8; 64],
    counts: &'a mut [u8; 64],
    codes: &'a mut [u32; 4096],
)
    requires { Whole file.now tasks lengths.now × AllFine (programs_in file.now tasks lengths.now)
        × (counts.old ≡ replicate 64 0) × (codes.old ≡ replicate 4096 0) }
    ensures { Filled (written_out_plan (programs_in file.now tasks lengths.now)) counts.new codes.new }
{
    let mut at: usize = 0;
    for k in 0..tasks as usize {
        let count = lengths[k] as usize;
        let w = write_task(file, at, count, 64 * k, codes);
        counts[k] = w as u8;
        at += 4 * count;
    }
}

// No task is left empty.
pub fn none_empty(tasks: u8, counts: &[u8; 64]) -> bool
    requires { tasks ≤ 64 }
    ensures { result ≡ below tasks (λ k. leb 1 (get_or counts.now k 0)) }
{
    are_some(&counts[..tasks as usize])
}
