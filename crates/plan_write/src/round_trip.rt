// Reading and writing, one after the other: each gives back what the other was given.
ghost use Rattle.plan_write.specs.round_trip.Trips.{Rewritten, Reread};

use crate::write_plan;
use plan::{Plan, PlanRead, Refusal};
use plan_file::read_plan;

// The file read, and the plan written again: an accepted file comes out as it went in.
pub fn rewrite(file: &[u8], out: &mut [u8]) -> Result<usize, Refusal>
    ensures { Rewritten file.now out.old result out.new }
{
    write_plan(read_plan(file).plan, out)
}

// The plan written, and what was written read again: an accepted plan comes back. Where nothing was
// written, the empty file is read.
pub fn reread(p: Plan, out: &mut [u8]) -> PlanRead
    ensures { Reread p out.old result }
{
    let Ok(n) = write_plan(p, out) else {
        return read_plan(b"");
    };
    read_plan(&out[..n])
}
