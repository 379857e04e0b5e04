// Says whether the plan in the file `rig.plan` can be started on the number of desks that stands as
// one digit on standard input: `accepted`, or `refused` and the number.
#![tactic(auto)]

use show_files::answers::{digit, print_refusal};
use std::io;

fn say(rt: &impl Print, number: u32) -> io::Result<()> {
    match number {
        0 => println!(rt; "accepted"),
        _ => print_refusal(rt, u64::from(number)),
    }
}

// A first byte that is no digit counts as 0 desks. A missing file counts as empty. The buffer is longer than any
// accepted file, of 16,644 bytes, so that a longer one is refused and not cut.
fn main(rt: HostRuntime) -> io::Result<()> {
    let processors = digit(&rt).unwrap_or(0);
    let mut plan = [0u8; 65536];
    let size = show_files::load(&rt, "rig.plan", &mut plan);
    say(
        &rt,
        driver::mortarsedge_plan_check(processors, &plan[..size]),
    )
}
