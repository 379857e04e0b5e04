// The trace program: runs the steps of the file `rig.steps` on the plan in the file `rig.plan` and
// the number of desks that stands as one digit on standard input, and prints the trace, or `refused`
// and the number.
#![tactic(auto)]

use show_files::answers::{digit, print_answer};
use std::io;

// A first byte that is no digit counts as 0 desks. The buffers are longer than any accepted file, of 16,644 bytes of
// plan and 8,000 of steps, so that a longer one is refused and not cut; and than any trace, of 2,000 lines of at most
// 19 bytes and the last.
fn main(rt: HostRuntime) -> io::Result<()> {
    let processors = digit(&rt).unwrap_or(0);
    let mut plan = [0u8; 65536];
    let mut steps = [0u8; 65536];
    let mut out = [0u8; 65536];
    let planned = show_files::load(&rt, "rig.plan", &mut plan);
    let stepped = show_files::load(&rt, "rig.steps", &mut steps);
    let answer = driver::mortarsedge_run(processors, &plan[..planned], &steps[..stepped], &mut out);
    print_answer(&rt, answer, &out)
}
