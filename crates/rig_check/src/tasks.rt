// One task within the limits of refusal 9, by its record and what is looked at of its program.
ghost use Rattle.std.specs.Prelude.{◌≡◌, ◌^◌, eqb, ltb, ◌&&◌};
ghost use Rattle.base.specs.Lists.{every};
ghost use Rattle.plan.specs.Words.{word_numbers};
ghost use Rattle.rules.specs.Hints.{is_unknown};
ghost use Rattle.rules.specs.Sound.{unborn_ok, where_ok, place_ok, origin_ok};
ghost use Rattle.rig_check.specs.tasks.Tests.{last_with, born_with, task_with};

use crate::limits::{pair_ok, processor_ok};
use plan::{RECEIVE, SEND, Word};
use rules::channel::Hint;
use rules::task::{Task, TaskState};
use task_rules::state::is_in;

// Every child of a set is a task of a rig of m tasks.
pub fn children_ok(m: u8, children: u64) -> bool
    ensures { result ≡ ltb children (2 ^ m) }
{
    64 <= m || children >> m == 0
}

// Every level is 0.
#[tactic(auto, unfolding(base::specs::Lists::every))]
fn is_zero(w: Word) -> bool
    ensures { result ≡ every (eqb 0) (word_numbers w) }
{
    w == Word(0, 0, 0, 0)
}

// An unborn task, with any children and no mark.
#[tactic(auto, unfolding(rules::specs::Sound::unborn_ok))]
fn unborn_ok(x: Task) -> bool
    ensures { result ≡ unborn_ok x }
{
    x.processor.0 == 0 && x.pc == 1 && is_zero(x.word) && !x.overflow && x.moves == 0
}

// A moving task has no desk; any other has one of the rig.
fn where_ok(n: u8, x: Task) -> bool
    ensures { result ≡ where_ok n x }
{
    if is_in(x, TaskState::Moving) {
        x.processor.0 == 0
    } else {
        processor_ok(n, x.processor)
    }
}

// A place in a program of `size` instructions; of a done task, up to one past.
fn place_ok(size: u8, x: Task) -> bool
    ensures { result ≡ place_ok size x }
{
    let past = if is_in(x, TaskState::Done) { 1 } else { 0 };
    1 <= x.pc && x.pc as usize <= size as usize + past
}

// A sending or receiving task whose last executed instruction is of this kind.
fn last_ok(kind: u8, x: Task) -> bool
    ensures { result ≡ last_with kind x }
{
    match x.state {
        TaskState::Sending => kind == SEND,
        TaskState::Receiving => kind == RECEIVE,
        _ => true,
    }
}

// A task that was born, in a rig of n desks.
fn born_ok(n: u8, size: u8, kind: u8, x: Task) -> bool
    ensures { result ≡ born_with n size kind x }
{
    1 <= x.moves && x.moves <= 9999 && where_ok(n, x) && place_ok(size, x) && last_ok(kind, x)
}

// A task in a rig of n desks and m tasks, with a program of `size` instructions; `kind` is the kind of
// its last executed one, 0 where it has executed none.
pub fn task_ok(n: u8, m: u8, size: u8, kind: u8, x: Task) -> bool
    ensures { result ≡ task_with n m size kind x }
{
    if !children_ok(m, x.children) {
        return false;
    }
    if is_in(x, TaskState::Unborn) {
        unborn_ok(x)
    } else {
        born_ok(n, size, kind, x)
    }
}

// The pointer is none.
fn is_nowhere(h: Hint) -> bool
    ensures { result ≡ is_unknown h && eqb h.moves 0 }
{
    h.processor.0 == 0 && h.moves == 0
}

// The own pointer of task t: none where the task is unborn or is task 1.
#[tactic(auto, unfolding(rules::specs::Sound::origin_ok))]
pub fn origin_ok(n: u8, t: usize, x: Task) -> bool
    ensures { result ≡ origin_ok n t x }
{
    let own = x.origin;
    if is_in(x, TaskState::Unborn) || t == 1 {
        is_nowhere(own)
    } else {
        pair_ok(n, 9999, own.processor, own.moves as usize)
    }
}
