// An ended letter: it names a child, and came along a pointer to the child's parent.
ghost use Rattle.std.specs.Prelude.{List, ◌≡◌, ℕ};
ghost use Rattle.rules.specs.declared.message.Message.TheVariants.{Terminated};
ghost use Rattle.plan_index.specs.user_table.Users.{parents_of};
ghost use Rattle.board.specs.Lent.{lent, Whole, tasks_on, parents_on};
ghost use Rattle.board.specs.Rigs.{Opened, Opening};
ghost use Rattle.steps.specs.message.TaskMessages.{CanEnd, ended_in};

use board::act::{Act, posted};
use board::{Board, parent_at, put_parent, put_task, task_at};
use plan::TaskId;
use plan_index::user_table::users::parent;
use rules::channel::Hint;
use rules::rule::Ended;

// What the letter leaves of the parent and of what its desk keeps for it, and where it goes on to; nothing is stored.
fn ended_outcome<'a>(users: &'a [u8; 1024], board: &'a Board, h: Hint, t: TaskId) -> Ended
    requires { CanEnd (parents_of users.now) h t }
    ensures { result ≡ ended_in (parents_of users.now) (tasks_on board.now) (parents_on board.now) h t }
{
    let u = parent(users, t);
    let a = task_at(board, u);
    let e = parent_at(board, h.processor, u);
    task_rules::instructions::terminated_rule(a, e, h, t)
}

// The letter is opened: the parent loses the child, or the letter is forwarded, or the child is held.
pub fn ended<'a>(users: &'a [u8; 1024], board: &'a mut Board, h: Hint, t: TaskId) -> Act
    requires { (Whole board.old) × (CanEnd (parents_of users.now) h t) }
    ensures { (codes hintprocessors hintmoves heldprocessors heldnumbers notes : List ℕ)
        → Opened codes users.now (Terminated h t)
        (lent hintprocessors hintmoves heldprocessors heldnumbers notes board.old)
        result
        (lent hintprocessors hintmoves heldprocessors heldnumbers notes board.new) }
{
    let o = ended_outcome(users, board, h, t);
    let u = parent(users, t);
    put_task(board, u, o.parent);
    put_parent(board, h.processor, u, o.entry);
    posted(o.posting)
}

// What opening it would do.
pub fn ended_decided<'a>(users: &'a [u8; 1024], board: &'a Board, h: Hint, t: TaskId) -> Act
    requires { CanEnd (parents_of users.now) h t }
    ensures { (codes hintprocessors hintmoves heldprocessors heldnumbers notes : List ℕ)
        → Opening codes users.now (Terminated h t)
        (lent hintprocessors hintmoves heldprocessors heldnumbers notes board.now)
        result }
{
    let o = ended_outcome(users, board, h, t);
    posted(o.posting)
}
