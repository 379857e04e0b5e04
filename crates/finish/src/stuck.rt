// Which task is stuck, and on which other it depends.
ghost use Rattle.std.specs.Prelude.{◌≡◌, ◌≤◌, ◌-◌};
ghost use Rattle.rules.specs.Finish.{is_stuck, lowest};
ghost use Rattle.board.specs.Lent.{tasks_on};
ghost use Rattle.plan_index.specs.user_table.Users.{senders_of, receivers_of};
ghost use Rattle.rig_parts.specs.Fetches.{instruction_in};
ghost use Rattle.finish.specs.Answers.{LastOn, Dependent, depends_in, finishes_in};

use board::fetch::instruction_in;
use board::{Board, task_at};
use plan::{ChannelId, TaskId};
use plan_index::user_table::users;
use rules::task::{Task, TaskState};
use task_rules::children::has_child;

// A task that is born and not done.
pub fn is_stuck(x: Task) -> bool
    ensures { result ≡ is_stuck x }
{
    x.state != TaskState::Unborn && x.state != TaskState::Done
}

// The lowest living child of a task; 0 if it has none.
pub fn lowest_child(x: Task) -> u8
    ensures { result ≡ lowest 64 x.children }
{
    for k in 0..64 {
        let t = k + 1;
        if has_child(x, TaskId(t)) {
            return t;
        }
    }
    0
}

// The channel of task t's last executed instruction, a send or a receive.
fn last_channel(codes: &[u32; 4096], t: TaskId, x: Task) -> ChannelId
    requires { LastOn codes.now t x }
    ensures { (result.0 ≡ (instruction_in codes.now t (x.pc - 1)).operand) × (result.0 ≤ 128) }
{
    let i = instruction_in(codes, t, x.pc - 1);
    ChannelId(i.operand as u8)
}

// The task that task t, with record x, depends on.
pub fn depends_on<'a>(codes: &'a [u32; 4096], users: &'a [u8; 1024], t: TaskId, x: Task) -> TaskId
    requires { Dependent codes.now t x }
    ensures { result ≡ depends_in codes.now (senders_of users.now) (receivers_of users.now) t x }
{
    match x.state {
        TaskState::Sending => users::receiver(users, last_channel(codes, t, x)),
        TaskState::Receiving => users::sender(users, last_channel(codes, t, x)),
        _ => TaskId(lowest_child(x)),
    }
}

// Whether no task of 1 to `count` is stuck.
pub fn finishes(board: &Board, count: u8) -> bool
    requires { count ≤ 64 }
    ensures { result ≡ finishes_in (tasks_on board.now) count }
{
    for k in 0..count {
        let x = task_at(board, TaskId(k + 1));
        if is_stuck(x) {
            return false;
        }
    }
    true
}
