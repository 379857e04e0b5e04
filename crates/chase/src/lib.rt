// The longest chase: a plan and steps for three desks, in which one offer is forwarded as often as asked.
#![tactic(auto)]

// The number of forwards, read from text.
pub mod number;
// The plan and the steps put into a lent output.
mod output;

ghost use Rattle.chase.specs.Outcomes.{ChaseMeets};

use output::{put_plan, put_steps};

// Why a chase is not written; specs/Outcomes gives the number of each.
#[derive(Clone, Copy)]
pub enum ChaseRefusal {
    TooMany,
    OutputShort,
}

// The plan and the steps of a chase with m forwards, into the lent outputs: 32 bytes, and 4 for each of
// 3 m + 11 steps. The answer is the number of bytes of steps. A refused call leaves both outputs as they were.
pub fn write_chase<'a>(
    m: u64,
    plan: &'a mut [u8],
    steps: &'a mut [u8],
) -> Result<usize, ChaseRefusal>
    ensures { ChaseMeets m plan.old steps.old result plan.new steps.new }
{
    if 500 < m {
        return Err(ChaseRefusal::TooMany);
    }
    let n = m as usize;
    if plan.len() < 32 {
        return Err(ChaseRefusal::OutputShort);
    }
    let size = 12 * n + 44;
    if steps.len() < size {
        return Err(ChaseRefusal::OutputShort);
    }
    put_plan(plan);
    put_steps(steps, n);
    Ok(size)
}
