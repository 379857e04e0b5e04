// The finish check, as a C program calls it.
ghost use Rattle.planner.specs.Finish.{FinishMeets};

use driver::{packed, run_number};
use finish::file::finish_file;

// Finish: whether a plan file runs to its end, and what is stuck if it does not, as text into the lent output. The number of the
// answer, and 256 times the number of bytes that are filled.
pub fn mortarsedge_finish<'a>(plan: &'a [u8], out: &'a mut [u8]) -> u64
    ensures { FinishMeets plan.now out.old result out.new }
{
    let o = finish_file(plan, out);
    packed(run_number(o.answer), o.filled)
}
