// Plan files written.
#![tactic(auto)]

// The header of a plan's file.
mod header;
// Bytes put at a place of a lent output; the instructions of a plan.
pub mod output;
// Reader and writer called one after the other, with what then holds as their contracts.
pub mod round_trip;

// A plan value written as a file.
ghost use Rattle.std.specs.Prelude.{◌≡◌};
ghost use Rattle.plan.specs.Programs.{programs};
ghost use Rattle.plan.specs.Refusals.{plan_answer};
ghost use Rattle.plan.specs.Outcomes.{WritePlan};

use crate::output::bytes::put_word;
use crate::output::code::write_code;
use header::{total_of, write_entries};
use plan::{Plan, Refusal};

// An accepted plan, if the output has room for it.
fn write_accepted(p: Plan, out: &mut [u8]) -> Result<usize, Refusal>
    requires { plan_answer (programs p) ≡ Ok tt }
    ensures { WritePlan (programs p) out.old result out.new }
{
    let n = p.tasks as usize;
    let total = total_of(n, &p.lengths);
    let start = 4 + 4 * n;
    let size = start + 4 * total;
    if out.len() < size {
        return Err(Refusal::OutputShort);
    }
    put_word(out, 0, n as u16);
    put_word(out, 2, total as u16);
    write_entries(out, n, &p.lengths);
    write_code(out, start, p.tasks, &p.lengths, &p.codes);
    Ok(size)
}

pub fn write_plan(p: Plan, out: &mut [u8]) -> Result<usize, Refusal>
    ensures { WritePlan (programs p) out.old result out.new }
{
    plan_value::check(p)?;
    write_accepted(p, out)
}
