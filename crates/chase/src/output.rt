// The plan and the steps of a chase, put into a lent output.
ghost use Rattle.std.specs.Prelude.{◌≡◌, ◌+◌, ◌*◌, ◌≤◌, length};
ghost use Rattle.base.specs.Range.{joined};
ghost use Rattle.rules.specs.Steps.{run_step, deliver_step, move_step};
ghost use Rattle.plan_write.specs.output.Output.{overlay};
ghost use Rattle.chase.specs.Construction.{chase_plan, round, ending, step_bytes, step_file, chase_file};

use plan_write::output::bytes::put_word;
use rules::step::Step;

// T and N; offset and count of both tasks; create 2, send 1, finish; receive 1, finish.
const PLAN: [u8; 32] = [
    2, 0, 5, 0, 12, 0, 3, 0, 24, 0, 2, 0, 1, 0, 2, 0, 4, 0, 1, 0, 3, 0, 0, 0, 5, 0, 1, 0, 3, 0, 0,
    0,
];

// The plan, put at the front of the output.
pub fn put_plan(out: &mut [u8])
    requires { 32 ≤ length out.old }
    ensures { out.new ≡ overlay out.old 0 chase_plan }
{
    out[..32].copy_from_slice(&PLAN);
}

// A run of a task, a delivery of the first letter, a move of task 2 to a desk.
fn run(task: u8) -> Step
    ensures { result ≡ run_step task }
{
    Step {
        kind: 1,
        task,
        number: 0,
    }
}

fn deliver() -> Step
    ensures { result ≡ deliver_step 1 }
{
    Step {
        kind: 2,
        task: 0,
        number: 1,
    }
}

fn move_to(desk: u16) -> Step
    ensures { result ≡ move_step 2 desk }
{
    Step {
        kind: 3,
        task: 2,
        number: desk,
    }
}

// A step put at a place of the output.
fn put_step(out: &mut [u8], at: usize, s: Step)
    requires { at + 4 ≤ length out.old }
    ensures { out.new ≡ overlay out.old at (step_bytes s) }
{
    out[at] = s.kind;
    out[at + 1] = s.task;
    put_word(out, at + 2, s.number);
}

// Steps put one behind the other at a place of the output.
fn put_all(out: &mut [u8], at: usize, steps: &[Step])
    requires { at + 4 * length steps.now ≤ length out.old }
    ensures { out.new ≡ overlay out.old at (step_file steps.now) }
{
    for (k, s) in steps.iter().enumerate() {
        put_step(out, at + 4 * k, *s);
    }
}

// The m rounds, behind the first three steps.
fn put_rounds(out: &mut [u8], m: usize)
    requires { (m ≤ 500) × (12 + 12 * m ≤ length out.old) }
    ensures { out.new ≡ overlay out.old 12 (step_file (joined m round)) }
{
    let next = deliver();
    for k in 0..m {
        let desk = 2 + (k + 1) % 2;
        let there = move_to(desk as u16);
        put_all(out, 12 + 12 * k, &[next, there, next]);
    }
}

// The last eight steps, put at a place of the output.
fn put_ending(out: &mut [u8], at: usize)
    requires { at + 32 ≤ length out.old }
    ensures { out.new ≡ overlay out.old at (step_file ending) }
{
    let next = deliver();
    let receiver = run(2);
    let sender = run(1);
    put_all(
        out,
        at,
        &[next, receiver, next, next, next, receiver, next, sender],
    );
}

// All steps, put at the front of the output.
pub fn put_steps(out: &mut [u8], m: usize)
    requires { (m ≤ 500) × (12 * m + 44 ≤ length out.old) }
    ensures { out.new ≡ overlay out.old 0 (chase_file m) }
{
    let sender = run(1);
    let away = move_to(2);
    put_all(out, 0, &[sender, away, sender]);
    put_rounds(out, m);
    put_ending(out, 12 + 12 * m);
}
