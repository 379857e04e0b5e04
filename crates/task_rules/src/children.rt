// The living children of a task, a set in the bits of one number.
ghost use Rattle.std.specs.Prelude.{◌≡◌, ◌≤◌, eqb};
ghost use Rattle.base.specs.Sets.{member, size};
ghost use Rattle.rules.specs.Tasks.{is_childless, with_child, woken, without_child, without_children};

use crate::{change, set, state};
use plan::TaskId;
use rules::task::{Task, TaskState};

// No child lives.
pub fn is_childless(x: Task) -> bool
    ensures { result ≡ is_childless x }
{
    x.children == 0
}

// How many children live, by a count of ones; 0 exactly when none does.
pub fn living(x: Task) -> u32
    ensures { (result ≡ size 64 x.children) × (eqb result 0 ≡ is_childless x) }
{
    x.children.count_ones()
}

// t is a living child.
pub fn has_child(x: Task, t: TaskId) -> bool
    requires { (1 ≤ t.0) × (t.0 ≤ 64) }
    ensures { result ≡ member t.0 x.children }
{
    set::contains(x.children, t.0)
}

// t is a child too.
pub fn with_child(mut x: Task, t: TaskId) -> Task
    requires { (1 ≤ t.0) × (t.0 ≤ 64) }
    ensures { result ≡ with_child x t }
{
    x.children = set::insert(x.children, t.0);
    x
}

// A task that waits for no child is ready.
#[tactic(auto, unfolding(rules::specs::Tasks::woken))]
fn woken(x: Task) -> Task
    ensures { result ≡ woken x }
{
    if state::is_in(x, TaskState::Waiting) && is_childless(x) {
        change::readied(x)
    } else {
        x
    }
}

// t is no child any more.
pub fn without_child(mut x: Task, t: TaskId) -> Task
    requires { (1 ≤ t.0) × (t.0 ≤ 64) }
    ensures { result ≡ without_child x t }
{
    x.children = set::remove(x.children, t.0);
    woken(x)
}

// None of the set is a child any more; the task is ready.
pub fn without_children(mut x: Task, held: u64) -> Task
    ensures { result ≡ without_children x held }
{
    x.children = set::remove_all(held, x.children);
    x
}
