// A rig and its panel: the rig that a plan and a step file leave, and rigs changed by hand.
use plan::{FINISH, Instruction, Plan};
use rules::step::Step;
use rules::system::System;

// The rig at the start of a plan, if that is accepted.
fn start(processors: u8, plan: Plan) -> Option<System> {
    let Ok(()) = plan_value::check(plan) else {
        return None;
    };
    Some(rig::start::start(processors, plan, plan_index::ends::derive(plan)))
}

// The rig after steps of four bytes each.
fn after(r: System, steps: &[u8]) -> System {
    let mut r = r;
    let (steps, _) = steps.as_chunks::<4>();
    for [kind, task, low, high] in steps {
        let step = Step {
            kind: *kind,
            task: *task,
            number: u16::from_le_bytes([*low, *high]),
        };
        r = rig_step::step(r, step).system;
    }
    r
}

// The panel, made so many times more than once.
fn repeated(r: System, rounds: u64) -> [u16; 27] {
    let mut counts = panel::panel(r);
    for _ in 0..rounds {
        counts = panel::panel(r);
    }
    counts
}

// The panel after a plan file and a step file; no count where the plan is not accepted.
pub fn panel_after(processors: u8, file: &[u8], steps: &[u8], rounds: u64) -> [u16; 27] {
    match start(processors, plan_file::read_plan(file).plan) {
        Some(r) => repeated(after(r, steps), rounds),
        None => [0; 27],
    }
}

// The rig of a plan of one task that only finishes, on two desks.
pub fn single_finish() -> Option<System> {
    let finish = Instruction {
        opcode: FINISH,
        level: 0,
        operand: 0,
    };
    let mut lengths = [0u8; 64];
    lengths[0] = 1;
    let mut codes = [0u32; 4096];
    codes[0] = finish.code();
    start(
        2,
        Plan {
            tasks: 1,
            lengths,
            codes,
        },
    )
}
