// What a C program calls whose crews don't choose steps, exported: the call is that of the library `chooser`, with its promise. It is a
// crate beside `driver_c`, so that the compiler makes each archive's functions for its own callers alone.
#![tactic(auto)]

ghost use Rattle.chooser.specs.Choices.{ChooseMeets};

// Choose: the dispatchers of the desks are called in turn from the start of a plan file until the rig is at rest, and the steps that
// they choose are written into the lent output as a step file. The number of the answer, and 256 times the number of bytes that are
// filled.
#[unsafe(no_mangle)]
pub extern "C" fn mortarsedge_choose<'a>(processors: u32, plan: &'a [u8], out: &'a mut [u8]) -> u64
    ensures { ChooseMeets processors plan.now out.old result out.new }
{
    chooser::choice::mortarsedge_choose(processors, plan, out)
}
