// A plan with repeats converted, as a C program calls it.
ghost use Rattle.std.specs.Prelude.{◌≡◌, ◌≤◌};
ghost use Rattle.plan.specs.Answers.{write_size};
ghost use Rattle.planner.specs.Converts.{longest_plan, write_packed, ConvertMeets};

use convert::convert;
use plan::Refusal;

// The number of the answer, and 256 times the number of bytes that are written.
fn write_packed(a: Result<usize, Refusal>) -> u64
    requires { write_size a ≤ longest_plan }
    ensures { result ≡ write_packed a }
{
    match a {
        Ok(n) => 256 * (n as u64),
        Err(r) => r.number() as u64,
    }
}

// The converter: a plan file of the new edition, written out into the lent output as a file of the present
// one. The number of the answer, and 256 times the number of bytes that are written.
pub fn mortarsedge_convert<'a>(plan: &'a [u8], out: &'a mut [u8]) -> u64
    ensures { ConvertMeets plan.now out.old result out.new }
{
    write_packed(convert(plan, out))
}
