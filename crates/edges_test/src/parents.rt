// What 9 says of pointers to parents, at its limits, and a parent that moves while its child finishes.
ghost use Rattle.std.specs.Prelude.{◌<◌};

use crate::rigs::{answer, deliver, depart, run, take_step};
use crate::say;
use plan::{ProcessorId, TaskId};
use rules::channel::Hint;
use rules::message::Message;
use rules::system::System;
use std::io;

// A pointer: desk and count.
fn pointer(desk: u8, moves: u16) -> Hint {
    Hint {
        processor: ProcessorId(desk),
        moves,
    }
}

// With this own pointer of the task after the first k a run of task 2 is answered so.
fn own(
    rt: &impl Print,
    what: &str,
    mut r: System,
    k: usize,
    desk: u8,
    moves: u16,
    number: u8,
) -> io::Result<()>
    requires { k < 64 }
{
    r.tasks.records[k].origin = pointer(desk, moves);
    say(rt, what, answer(r, run(2)) == number)
}

// With this entry of desk 6 for task 64, the last, a pointer and held children, a run of task 2 is answered so.
fn entry(
    rt: &impl Print,
    what: &str,
    mut r: System,
    desk: u8,
    moves: u16,
    held: u64,
    number: u8,
) -> io::Result<()> {
    r.parents.hintprocessors[383] = desk;
    r.parents.hintmoves[383] = moves;
    r.parents.held[383] = held;
    say(rt, what, answer(r, run(2)) == number)
}

// The ended letter of task 2 to this desk with this count, the only letter, is answered so.
fn ended(
    rt: &impl Print,
    what: &str,
    mut r: System,
    desk: u8,
    moves: u16,
    number: u8,
) -> io::Result<()> {
    r.network.slots[0].message = Message::Terminated(pointer(desk, moves), TaskId(2));
    r.network.used = 1;
    say(rt, what, answer(r, deliver(1)) == number)
}

// Own pointers: "both 0 for an unborn task, and always for task 1", else in range. In the second rig task 2 is born.
fn own_pointers(rt: &impl Print, start: System, born: System) -> io::Result<()> {
    own(rt, "own pointer, no desk: 9", born, 1, 0, 1, 9)?;
    own(rt, "own pointer, desk 3 of 2: 9", born, 1, 3, 1, 9)?;
    own(rt, "own pointer, count 0: 9", born, 1, 1, 0, 9)?;
    own(rt, "own pointer, count 10,000: 9", born, 1, 1, 10000, 9)?;
    own(rt, "own pointer, both 0: 9", born, 1, 0, 0, 9)?;
    own(rt, "own pointer, desk 2, count 9,999", born, 1, 2, 9999, 0)?;
    own(
        rt,
        "own pointer of an unborn task, desk 1: 9",
        start,
        1,
        1,
        0,
        9,
    )?;
    own(
        rt,
        "own pointer of an unborn task, count 1: 9",
        start,
        1,
        0,
        1,
        9,
    )?;
    own(rt, "own pointer of task 1, desk 1: 9", born, 0, 1, 0, 9)?;
    own(rt, "own pointer of task 1, count 1: 9", born, 0, 0, 1, 9)?;
    own(rt, "own pointer of task 1, both 1: 9", born, 0, 1, 1, 9)
}

// What a desk keeps for a parent: both 0 or both in range, and held children from 1 to T, which is 2 here.
fn entries(rt: &impl Print, born: System) -> io::Result<()> {
    entry(rt, "a desk's pointer, count 0: 9", born, 1, 0, 0, 9)?;
    entry(rt, "a desk's pointer, no desk: 9", born, 0, 1, 0, 9)?;
    entry(rt, "a desk's pointer, desk 3 of 2: 9", born, 3, 1, 0, 9)?;
    entry(
        rt,
        "a desk's pointer, count 10,000: 9",
        born,
        1,
        10000,
        0,
        9,
    )?;
    entry(
        rt,
        "a desk's pointer, desk 2, count 9,999",
        born,
        2,
        9999,
        0,
        0,
    )?;
    entry(rt, "task 3 of 2 held: 9", born, 0, 0, 4, 9)?;
    entry(rt, "tasks 1 and 2 held", born, 0, 0, 3, 0)
}

// The count of an ended letter: 1 to 9,999.
fn ended_letters(rt: &impl Print, born: System) -> io::Result<()> {
    ended(rt, "an ended letter, count 0: 9", born, 1, 0, 9)?;
    ended(rt, "an ended letter, count 10,000: 9", born, 1, 10000, 9)?;
    ended(rt, "an ended letter, count 9,999", born, 1, 9999, 0)
}

// Task 1 moves to desk 2 while task 2 lives; task 2 finishes. Its letter comes before task 1, and is held there until task 1
// arrives. Where task 1 comes first, it has its child until the letter comes.
fn moving_parent(rt: &impl Print, born: System) -> io::Result<()> {
    let left = take_step(
        rt,
        "a task with a living child moves",
        born,
        depart(2),
        0,
        2,
    )?;
    let posted = take_step(rt, "its child finishes elsewhere", left, run(2), 0, 2)?;
    let held = take_step(rt, "the ended letter comes first", posted, deliver(2), 0, 2)?;
    let there = take_step(rt, "the parent arrives", held, deliver(1), 0, 2)?;
    let _ = take_step(rt, "and finishes: no child is left", there, run(1), 0, 2)?;
    let early = take_step(rt, "the parent comes first", posted, deliver(1), 0, 2)?;
    let what = "and has its child until the letter comes: 12";
    let _ = take_step(rt, what, early, run(1), 12, 2)?;
    Ok(())
}

// Of a rig of two desks at its start, in which task 1 creates task 2.
pub fn edges(rt: &impl Print, start: System) -> io::Result<()> {
    let born = rig_step::step(start, run(1)).system;
    own_pointers(rt, start, born)?;
    entries(rt, born)?;
    ended_letters(rt, born)?;
    moving_parent(rt, born)
}
