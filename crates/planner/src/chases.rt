// A chase written, as a C program calls it.
ghost use Rattle.std.specs.Prelude.{◌≡◌, ◌≤◌};
ghost use Rattle.planner.specs.Chases.{chase_size, longest_chase, chase_packed, ChaseWrites};

use chase::{ChaseRefusal, write_chase};

// The number of the answer, and 256 times the number of bytes of steps that are written.
fn chase_packed(a: Result<usize, ChaseRefusal>) -> u64
    requires { chase_size a ≤ longest_chase }
    ensures { result ≡ chase_packed a }
{
    match a {
        Ok(n) => 256 * (n as u64),
        Err(ChaseRefusal::TooMany) => 26,
        Err(ChaseRefusal::OutputShort) => 20,
    }
}

// The chase: a plan of 32 bytes and steps for three desks in which one offer is forwarded m times, into the lent outputs. The
// number of the answer, and 256 times the number of bytes of steps that are written.
pub fn mortarsedge_chase<'a>(m: u32, plan: &'a mut [u8], steps: &'a mut [u8]) -> u64
    ensures { ChaseWrites m plan.old steps.old result plan.new steps.new }
{
    chase_packed(write_chase(m as u64, plan, steps))
}
