// The finish program: says of the plan in the file `rig.plan` whether it runs to its end: `yes` or `no` and the number
// of accepted run steps, and after `no` a line for each task that is stuck, with the task that it depends on; or
// `refused` and the number.
#![tactic(auto)]

use show_files::answers::print_answer;
use std::io;

// The buffers are longer than any accepted file, of 16,644 bytes, so that a longer one is refused and not
// cut, and than any text, of 392 bytes.
fn main(rt: HostRuntime) -> io::Result<()> {
    let mut plan = [0u8; 65536];
    let mut out = [0u8; 4096];
    let size = show_files::load(&rt, "rig.plan", &mut plan);
    let answer = planner::finish_check::mortarsedge_finish(&plan[..size], &mut out);
    print_answer(&rt, answer, &out)
}
