// The instructions that use no channel, carried out on what is lent.
ghost use Rattle.std.specs.Prelude.{◌≡◌, List, ℕ, ◌≤◌};
ghost use Rattle.plan.specs.declared.ProcessorId.{ProcessorId};
ghost use Rattle.plan_index.specs.user_table.Users.{receivers_of, parents_of, Indexed};
ghost use Rattle.board.specs.Lent.{lent, Whole, tasks_on, parents_on};
ghost use Rattle.board.specs.Acted.{Acted, act_of};
ghost use Rattle.steps.specs.instruction.Locals.{CanCreate, CanFinish, create_verdict, finished_in, finish_verdict, alone_verdict};

use board::act::{Act, Size, fits, posted, refused};
use board::sweeps::locate;
use board::{Board, parent_at, point_parent, put_parent, put_task, task_at};
use plan::TaskId;
use plan_index::user_table::users::parent;
use rules::channel::Hint;
use rules::rule::{Finished, Posting};
use rules::step::StepRefusal;
use rules::task::Task;

// A create of task t, with record x: task u is born at its desk.
pub fn create<'a>(
    users: &'a [u8; 1024],
    hintprocessors: &'a mut [u8; 768],
    hintmoves: &'a mut [u16; 768],
    board: &'a mut Board,
    t: TaskId,
    x: Task,
    u: TaskId,
) -> Act
    requires { (Whole board.old) × (Indexed users.now) × (CanCreate t x u) }
    ensures { (senders heldprocessors heldnumbers notes : List ℕ)
        → Acted senders (receivers_of users.now) (create_verdict t x u)
        (lent hintprocessors.old hintmoves.old heldprocessors heldnumbers notes board.old)
        result
        (lent hintprocessors.new hintmoves.new heldprocessors heldnumbers notes board.new) }
{
    let d = x.processor;
    let y = task_rules::instructions::create_rule(x, u);
    let own = Hint {
        processor: d,
        moves: x.moves,
    };
    let child = x.birth(d, own);
    put_task(board, t, y);
    put_task(board, u, child);
    let h = Hint {
        processor: d,
        moves: 1,
    };
    point_parent(board, d, u, h);
    locate(users, hintprocessors, hintmoves, u, d, h);
    posted(Posting::Nothing)
}

// What a finish of task t, with record x, leaves of its parent, of the task and of what its desk keeps for the parent, and its
// letter.
fn finished<'a>(users: &'a [u8; 1024], board: &'a Board, t: TaskId, x: Task) -> Finished
    requires { CanFinish (parents_of users.now) t x }
    ensures { result ≡ finished_in (parents_of users.now) (tasks_on board.now) (parents_on board.now) t x }
{
    let u = parent(users, t);
    let a = task_at(board, u);
    let e = parent_at(board, x.processor, u);
    task_rules::instructions::finish_rule(t, x, a, e)
}

// A finish of task t, with record x, unless its letter does not fit.
pub fn finish<'a>(users: &'a [u8; 1024], board: &'a mut Board, n: Size, t: TaskId, x: Task) -> Act
    requires { (Whole board.old) × (n.used ≤ 256) × (CanFinish (parents_of users.now) t x) }
    ensures { (senders receivers hintprocessors hintmoves heldprocessors heldnumbers notes : List ℕ)
        → Acted senders receivers (finish_verdict (parents_of users.now) n.processors n.used (tasks_on board.old) (parents_on board.old) t x)
        (lent hintprocessors hintmoves heldprocessors heldnumbers notes board.old)
        result
        (lent hintprocessors hintmoves heldprocessors heldnumbers notes board.new) }
{
    let f = finished(users, board, t, x);
    if !fits(n, f.posting) {
        return refused(Err(StepRefusal::NetworkFull));
    }
    let u = parent(users, t);
    put_task(board, u, f.parent);
    put_task(board, t, f.task);
    put_parent(board, x.processor, u, f.entry);
    posted(f.posting)
}

// The same, decided and not done.
pub fn finish_decided<'a>(
    users: &'a [u8; 1024],
    board: &'a Board,
    n: Size,
    t: TaskId,
    x: Task,
) -> Act
    requires { (n.used ≤ 256) × (CanFinish (parents_of users.now) t x) }
    ensures { result ≡ act_of (finish_verdict (parents_of users.now) n.processors n.used (tasks_on board.now) (parents_on board.now) t x) }
{
    let f = finished(users, board, t, x);
    if !fits(n, f.posting) {
        return refused(Err(StepRefusal::NetworkFull));
    }
    posted(f.posting)
}

// Task t becomes y, and nothing else changes.
pub fn alone(board: &mut Board, t: TaskId, y: Task) -> Act
    requires { (t.0 ≤ 64) × Whole board.old }
    ensures { (senders receivers hintprocessors hintmoves heldprocessors heldnumbers notes : List ℕ) (d : ProcessorId)
        → Acted senders receivers (alone_verdict t d y)
        (lent hintprocessors hintmoves heldprocessors heldnumbers notes board.old)
        result
        (lent hintprocessors hintmoves heldprocessors heldnumbers notes board.new) }
{
    put_task(board, t, y);
    posted(Posting::Nothing)
}
