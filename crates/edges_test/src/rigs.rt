// Rigs that are changed by hand, and one step of them: the last move of a task, an unborn task with a mark.
use crate::say;
use plan::{CREATE, FINISH, Instruction, Plan};
use rules::step::Step;
use rules::system::System;
use std::io;

// A run of a task.
pub fn run(task: u8) -> Step {
    Step {
        kind: 1,
        task,
        number: 0,
    }
}

// The delivery of the letter at a place of the mail.
pub fn deliver(number: u16) -> Step {
    Step {
        kind: 2,
        task: 0,
        number,
    }
}

// The departure of task 1 to a desk.
pub fn depart(desk: u16) -> Step {
    Step {
        kind: 3,
        task: 1,
        number: desk,
    }
}

// The four bytes of an instruction on no level.
fn code(opcode: u8, operand: u16) -> u32 {
    let instruction = Instruction {
        opcode,
        level: 0,
        operand,
    };
    instruction.code()
}

// A plan of one task that only finishes.
fn single_finish() -> Plan {
    let mut lengths = [0u8; 64];
    lengths[0] = 1;
    let mut codes = [0u32; 4096];
    codes[0] = code(FINISH, 0);
    Plan {
        tasks: 1,
        lengths,
        codes,
    }
}

// The rig at the start of a plan on two desks, if that is accepted.
fn start(plan: Plan) -> Option<System> {
    let Ok(()) = plan_value::check(plan) else {
        return None;
    };
    Some(rig::start::start(2, plan, plan_index::ends::derive(plan)))
}

// What the step is answered.
pub fn answer(r: System, step: Step) -> u8 {
    trace::answer_number(rig_step::step(r, step).report.answer)
}

// A step is answered so and leaves task 1 with this move count: the rig then.
pub fn take_step(
    rt: &impl Print,
    what: &str,
    r: System,
    step: Step,
    number: u8,
    moves: u16,
) -> io::Result<System> {
    let stepped = rig_step::step(r, step);
    let answered = trace::answer_number(stepped.report.answer) == number;
    let left = stepped.system;
    say(rt, what, answered && left.tasks.records[0].moves == moves)?;
    Ok(left)
}

// A task with a count of 9,998 moves to desk 2 and arrives there; it then moves no more.
pub fn last_move(rt: &impl Print) -> io::Result<()> {
    let Some(start) = start(single_finish()) else {
        return say(rt, "a plan of one finish accepted", false);
    };
    let mut r = start;
    r.tasks.records[0].moves = 9998;
    let left = take_step(rt, "move count 9,998 moves", r, depart(2), 0, 9999)?;
    let there = take_step(rt, "its mover letter delivered", left, deliver(1), 0, 9999)?;
    let _ = take_step(rt, "move count 9,999: 18", there, depart(1), 18, 9999)?;
    Ok(())
}

// A plan of two tasks: the first creates the second, and both finish.
fn creating() -> Plan {
    let mut lengths = [0u8; 64];
    lengths[0] = 2;
    lengths[1] = 1;
    let mut codes = [0u32; 4096];
    codes[0] = code(CREATE, 2);
    codes[1] = code(FINISH, 0);
    codes[64] = code(FINISH, 0);
    Plan {
        tasks: 2,
        lengths,
        codes,
    }
}

// The rig with a mark on task 2.
fn with_mark(mut r: System) -> System {
    r.tasks.records[1].overflow = true;
    r
}

// A mark on task 2 is refused by 9 before its birth, and not after it.
fn marked_unborn(rt: &impl Print, r: System) -> io::Result<()> {
    let _ = take_step(
        rt,
        "an unborn task with a mark: 9",
        with_mark(r),
        run(1),
        9,
        1,
    )?;
    let born = with_mark(rig_step::step(r, run(1)).system);
    let _ = take_step(rt, "a ready task with a mark runs", born, run(2), 0, 1)?;
    Ok(())
}

// The plan of two tasks at its start on two desks: marks, and pointers to parents.
pub fn two_tasks(rt: &impl Print) -> io::Result<()> {
    let Some(r) = start(creating()) else {
        return say(rt, "a plan of two tasks accepted", false);
    };
    marked_unborn(rt, r)?;
    crate::parents::edges(rt, r)
}
