// The steps that dispatchers choose, as a C program calls it.
ghost use Rattle.chooser.specs.Choices.{ChooseMeets};

use dispatch::choose::file::choose_file;
use driver::{packed, run_number};

// Choose: the dispatchers of the desks are called in turn from the start of a plan file until the rig is at rest, and the steps that
// they choose are written into the lent output as a step file. The number of the answer, and 256 times the number of bytes that are
// filled.
pub fn mortarsedge_choose<'a>(processors: u32, plan: &'a [u8], out: &'a mut [u8]) -> u64
    ensures { ChooseMeets processors plan.now out.old result out.new }
{
    let o = choose_file(processors, plan, out);
    packed(run_number(o.answer), o.filled)
}
