// A task of a rig in bytes: 9, then 10, then its record.
ghost use Rattle.std.specs.Prelude.{◌≡◌, length};
ghost use Rattle.image.specs.Image.{rig_size};
ghost use Rattle.image.specs.Live.{held};
ghost use Rattle.live_rig.specs.Shows.{Finds};

use crate::open::{open_parts, plan_in};
use board::fetch::no_task;
use board::task_at;
use plan::{Refusal, TaskId};
use rules::task::Task;
use views::has_task;

// 0 and a task's record, or the number of the refusal.
#[derive(Clone, Copy)]
pub struct Found {
    pub number: u32,
    pub task: Task,
}

// A refusal.
fn refused(number: u32) -> Found
    ensures { result.number ≡ number }
{
    let none = no_task();
    Found {
        number: number,
        task: none,
    }
}

// Task t of the rig in bytes of a rig's size.
fn task_of(rig: &[u8], t: TaskId) -> Found
    requires { length rig.now ≡ rig_size }
    ensures { Finds rig.now t result }
{
    let mut codes = [0u32; 4096];
    let mut parents = [0u8; 129];
    let mut senders = [0u8; 129];
    let mut receivers = [0u8; 129];
    let read = plan_in(rig, &mut codes, &mut parents, &mut senders, &mut receivers);
    let answer = read.answer;
    match answer {
        Err(a) => refused(9),
        Ok(()) => {
            let lengths = read.lengths;
            let mut hintprocessors = [0u8; 768];
            let mut hintmoves = [0u16; 768];
            let mut heldprocessors = [0u8; 768];
            let mut heldnumbers = [0u8; 768];
            let mut notes = [0u8; 768];
            let mut board = [0u64; 1094];
            let o = open_parts(
                rig,
                read.tasks,
                &lengths,
                &codes,
                &mut hintprocessors,
                &mut hintmoves,
                &mut heldprocessors,
                &mut heldnumbers,
                &mut notes,
                &mut board,
            );
            if !o.ok {
                return refused(9);
            }
            if !has_task(read.tasks, t) {
                return refused(10);
            }
            let x = task_at(&board, t);
            Found { number: 0, task: x }
        }
    }
}

// Task t of the rig in lent bytes.
pub fn find(rig: &[u8], t: TaskId) -> Found
    ensures { Finds (held rig.now) t result }
{
    if rig.len() < 34120 {
        return refused(9);
    }
    task_of(&rig[..34120], t)
}
