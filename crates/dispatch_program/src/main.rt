// The dispatch program, for crews that don't want to choose steps: calls the dispatchers of the desks in turn until the rig is at
// rest, on the plan in the file `rig.plan` and the number of desks that stands as one digit on standard input. It writes the steps
// that they chose as the file `rig.steps` and prints the trace, or `refused` and the number.
#![tactic(auto)]

use show_files::answers::{Answer, digit, print_answer, print_refusal};
use std::rt::Files;
use std::{fs, io};

// The step file becomes these steps; where it can't, that is said.
fn save(rt: &(impl Files + Eprint), steps: &[u8]) {
    if let Err(why) = fs::write(rt, "rig.steps", steps) {
        show_files::fail(rt, "rig.steps", why);
    }
}

// The chosen steps become the step file, and they are traced.
fn keep(
    rt: &(impl Files + Print + Eprint),
    processors: u32,
    plan: &[u8],
    steps: &[u8],
) -> io::Result<()> {
    save(rt, steps);
    let mut out = [0u8; 65536];
    let answer = driver::mortarsedge_run(processors, plan, steps, &mut out);
    print_answer(rt, answer, &out)
}

// The steps are chosen, kept and traced, and it is said where there were more, which is refusal 20. Only a plan file that can be
// started changes the step file.
fn dispatch_plan(
    rt: &(impl Files + Print + Eprint),
    processors: u32,
    plan: &[u8],
) -> io::Result<()> {
    let mut steps = [0u8; 8000];
    let answer = Answer::from(chooser::choice::mortarsedge_choose(processors, plan, &mut steps));
    if answer.number != 0 && answer.number != 20 {
        return print_refusal(rt, answer.number);
    }
    if let Some(chosen) = steps.get(..answer.filled) {
        keep(rt, processors, plan, chosen)?;
    }
    if answer.number == 20 {
        println!(rt; "more than 2000 steps: rig.steps has the first 2000")?;
    }
    Ok(())
}

// A first byte that is no digit counts as 0 desks.
fn main(rt: HostRuntime) -> io::Result<()> {
    let processors = digit(&rt).unwrap_or(0);
    let mut plan = [0u8; 65536];
    let size = show_files::load(&rt, "rig.plan", &mut plan);
    dispatch_plan(&rt, processors, &plan[..size])
}
