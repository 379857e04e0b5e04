// What a C program calls before a show, exported: each call is that of the library `planner`, with its promise. It is a crate beside
// `driver_c`, so that the compiler makes each archive's functions for its own callers alone.
#![tactic(auto)]

ghost use Rattle.planner.specs.Finish.{FinishMeets};
ghost use Rattle.planner.specs.Converts.{ConvertMeets};
ghost use Rattle.planner.specs.Chases.{ChaseWrites};

// Finish: whether a plan file runs to its end, and what is stuck if it does not, as text into the lent output. The number of the
// answer, and 256 times the number of bytes that are filled.
#[unsafe(no_mangle)]
pub extern "C" fn mortarsedge_finish<'a>(plan: &'a [u8], out: &'a mut [u8]) -> u64
    ensures { FinishMeets plan.now out.old result out.new }
{
    planner::finish_check::mortarsedge_finish(plan, out)
}

// The converter: a plan file of the new edition, written out into the lent output as a file of the present
// one. The number of the answer, and 256 times the number of bytes that are written.
#[unsafe(no_mangle)]
pub extern "C" fn mortarsedge_convert<'a>(plan: &'a [u8], out: &'a mut [u8]) -> u64
    ensures { ConvertMeets plan.now out.old result out.new }
{
    planner::conversion::mortarsedge_convert(plan, out)
}

// The chase: a plan of 32 bytes and steps for three desks in which one offer is forwarded m times, into the lent outputs. The
// number of the answer, and 256 times the number of bytes of steps that are written.
#[unsafe(no_mangle)]
pub extern "C" fn mortarsedge_chase<'a>(m: u32, plan: &'a mut [u8], steps: &'a mut [u8]) -> u64
    ensures { ChaseWrites m plan.old steps.old result plan.new steps.new }
{
    planner::chases::mortarsedge_chase(m, plan, steps)
}
