// Which state a task is in, and where it is.
ghost use Rattle.std.specs.Prelude.{◌≡◌};
ghost use Rattle.rules.specs.Numbers.{is_none, same_processor};
ghost use Rattle.rules.specs.Tasks.{is_in, is_at};

use plan::ProcessorId;
use rules::task::{Task, TaskState};

// The task is in this state.
pub fn is_in(x: Task, s: TaskState) -> bool
    ensures { result ≡ is_in s x }
{
    x.state == s
}

// Two numbers name the same desk.
pub fn same_processor(a: ProcessorId, b: ProcessorId) -> bool
    ensures { result ≡ same_processor a b }
{
    a == b
}

// The task is at desk d.
pub fn is_at(x: Task, d: ProcessorId) -> bool
    ensures { result ≡ is_at d x }
{
    x.processor == d
}

// The number names no desk.
pub fn is_none(d: ProcessorId) -> bool
    ensures { result ≡ is_none d }
{
    d.0 == 0
}
