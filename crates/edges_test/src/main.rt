// Edges that are compared by a run: of the paper's list the limits of a plan file and the last move of a
// task; sums at the top and over it, and an unborn task with a mark; pointers to parents, and a parent that moves.
#![tactic(auto)]

// Pointers to parents, and a parent that moves.
mod parents;
// Rigs that are changed by hand, and one step of them.
mod rigs;

use std::io;
use std::rt::Files;

fn say(rt: &impl Print, what: &str, right: bool) -> io::Result<()> {
    let how = if right { "ok" } else { "WRONG" };
    println!(rt; "{what}: {how}")
}

// The run of a plan file and of steps on one desk, into an output that holds this byte, answers this number and
// leaves these bytes. A missing file counts as empty.
fn run_leaves<const N: usize>(
    rt: &impl Files,
    name: &str,
    steps: &[u8],
    before: u8,
    answer: u64,
    left: &[u8; N],
) -> bool {
    let mut plan = [0u8; 4096];
    let size = show_files::load(rt, name, &mut plan);
    let mut out = [before; N];
    driver::mortarsedge_run(1, &plan[..size], steps, &mut out) == answer && out == *left
}

// With no step a plan is accepted: number 0, and the 8 bytes of the last line.
fn is_accepted(rt: &impl Files, name: &str) -> bool {
    run_leaves(rt, name, b"", 165, 2048, b"end 0 0\n")
}

// A refused plan: the number, and the output untouched.
fn is_refused(rt: &impl Files, name: &str, number: u64) -> bool {
    run_leaves(rt, name, b"", 165, number, &[165; 8])
}

// The run of over.plan and over.steps into dots.
fn over<const N: usize>(rt: &impl Files, answer: u64, left: &[u8; N]) -> bool {
    let mut steps = [0u8; 4096];
    let size = show_files::load(rt, "over.steps", &mut steps);
    run_leaves(rt, "over.plan", &steps[..size], b'.', answer, left)
}

// Tasks 1 and 3 pass 65,535 and task 2 reaches it. The lines `over` are whole lines: one that does not fit is not
// begun, and none is written behind it. Bytes that are not written stay dots.
fn sums_over(rt: &(impl Files + Print)) -> io::Result<()> {
    let full = over(
        rt,
        17408,
        b"1 0\n2 0\n3 0\n4 0\n5 0\n6 0\n7 0\n8 0\n9 0\n10 0\n11 0\nover 1\nover 3\nend 1 0\n.",
    );
    say(rt, "sums over the top", full)?;
    let short = over(
        rt,
        15380,
        b"1 0\n2 0\n3 0\n4 0\n5 0\n6 0\n7 0\n8 0\n9 0\n10 0\n11 0\nover 1\nover 3\n.......",
    );
    say(rt, "no room for the last line: 20", short)?;
    let shorter = over(
        rt,
        13588,
        b"1 0\n2 0\n3 0\n4 0\n5 0\n6 0\n7 0\n8 0\n9 0\n10 0\n11 0\nover 1\n......",
    );
    say(rt, "no room for a line over: 20", shorter)
}

fn main(rt: HostRuntime) -> io::Result<()> {
    say(&rt, "T 64 accepted", is_accepted(&rt, "tasks64.plan"))?;
    say(
        &rt,
        "64 instructions accepted",
        is_accepted(&rt, "code64.plan"),
    )?;
    say(&rt, "65 instructions: 2", is_refused(&rt, "code65.plan", 2))?;
    rigs::last_move(&rt)?;
    sums_over(&rt)?;
    rigs::two_tasks(&rt)
}
