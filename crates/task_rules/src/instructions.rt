// The instructions that use no channel, and what an ended letter does to a parent.
ghost use Rattle.std.specs.Prelude.{◌≡◌, ◌<◌, ◌≤◌};
ghost use Rattle.rules.specs.Arrivals.{terminated_rule};
ghost use Rattle.rules.specs.Local.{create_rule, sync_rule, finish_rule, set_rule, add_rule};

use crate::{change, children, parents, state};
use plan::{Instruction, TaskId};
use rules::channel::Hint;
use rules::message::Message;
use rules::rule::{Ended, Finished, Posting};
use rules::system::ParentEntry;
use rules::task::{Task, TaskState};

// Create: the creating task has one more child.
pub fn create_rule(x: Task, u: TaskId) -> Task
    requires { (x.pc < 255) × (1 ≤ u.0) × (u.0 ≤ 64) }
    ensures { result ≡ create_rule x u }
{
    children::with_child(change::advanced(x), u)
}

// Sync: the task waits where children live.
#[tactic(auto, unfolding(rules::specs::Local::sync_rule))]
pub fn sync_rule(x: Task) -> Task
    requires { x.pc < 255 }
    ensures { result ≡ sync_rule x }
{
    let next = change::advanced(x);
    if children::is_childless(x) {
        next
    } else {
        next.with_state(TaskState::Waiting)
    }
}

// Finish: task t with record x, its parent's record, and what its desk keeps for the parent. A parent elsewhere is told by a
// letter along the newer pointer; where that names the task's desk, the task is held.
#[tactic(auto, unfolding(rules::specs::Local::finish_rule))]
pub fn finish_rule(t: TaskId, x: Task, parent: Task, e: ParentEntry) -> Finished
    requires { (x.pc < 255) × (1 ≤ t.0) × (t.0 ≤ 64) }
    ensures { result ≡ finish_rule t x parent e }
{
    let at = x.processor;
    let along = cell_rules::order::newer(e.hint, x.origin);
    let done = change::advanced(x).with_state(TaskState::Done);
    let finished = Finished {
        task: done,
        parent,
        entry: e,
        posting: Posting::Nothing,
    };
    if t.0 == 1 {
        return finished;
    }
    if state::is_at(parent, at) {
        let without = children::without_child(parent, t);
        return Finished {
            parent: without,
            ..finished
        };
    }
    if along.processor == at {
        let held = parents::holding_child(e, t);
        return Finished {
            entry: held,
            ..finished
        };
    }
    let message = Message::Terminated(along, t);
    Finished {
        posting: Posting::Single(message),
        ..finished
    }
}

// Set: the word is the operand.
pub fn set_rule(mut x: Task, i: Instruction) -> Task
    requires { x.pc < 255 }
    ensures { result ≡ set_rule x i }
{
    x.word = x.word.set(i);
    change::advanced(x)
}

// Add: the operand is added to the word; a sum over the top marks the task.
pub fn add_rule(mut x: Task, i: Instruction) -> Task
    requires { x.pc < 255 }
    ensures { result ≡ add_rule x i }
{
    let sum = x.word.add(i);
    x.word = sum.word;
    change::advanced(change::marked(x, sum.overflow))
}

// An ended letter for child t that came along h: the parent's record, and what the letter's desk keeps for it. Where the parent
// is not, the letter is forwarded or the child is held.
#[tactic(auto, unfolding(rules::specs::Arrivals::terminated_rule))]
pub fn terminated_rule(parent: Task, e: ParentEntry, h: Hint, t: TaskId) -> Ended
    requires { (1 ≤ t.0) × (t.0 ≤ 64) }
    ensures { result ≡ terminated_rule parent e h t }
{
    let ended = Ended {
        parent,
        entry: e,
        posting: Posting::Nothing,
    };
    if !children::has_child(parent, t) {
        return ended;
    }
    if state::is_at(parent, h.processor) {
        let without = children::without_child(parent, t);
        return Ended {
            parent: without,
            ..ended
        };
    }
    let own = e.hint;
    if cell_rules::order::points_on(own, h) {
        return Ended {
            posting: Posting::Single(Message::Terminated(own, t)),
            ..ended
        };
    }
    let held = parents::holding_child(e, t);
    Ended {
        entry: held,
        ..ended
    }
}
