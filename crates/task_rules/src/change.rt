// The small changes of a task: its place, its state, its word, its mark.
ghost use Rattle.std.specs.Prelude.{◌≡◌, ◌<◌};
ghost use Rattle.rules.specs.Tasks.{advanced, readied, taking, marked};

use plan::Word;
use rules::task::{Task, TaskState};

// The place goes on by one. The record is made anew: a store to the place alone is waited for where the record is next read.
pub fn advanced(x: Task) -> Task
    requires { x.pc < 255 }
    ensures { result ≡ advanced x }
{
    Task { pc: x.pc + 1, ..x }
}

// The task is ready.
pub fn readied(x: Task) -> Task
    ensures { result ≡ readied x }
{
    x.with_state(TaskState::Ready)
}

// The task has a word passed to it, and is ready.
pub fn taking(mut x: Task, w: Word) -> Task
    ensures { result ≡ taking x w }
{
    x.word = w;
    readied(x)
}

// The task after a sum that went over the top, or did not. A mark stays.
pub fn marked(mut x: Task, over: bool) -> Task
    ensures { result ≡ marked x over }
{
    x.overflow = x.overflow || over;
    x
}
