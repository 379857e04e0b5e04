// A move of a task: its tests, what it would post, and the move.
ghost use Rattle.std.specs.Prelude.{◌≡◌, ◌≤◌};
ghost use Rattle.plan.specs.Numbers.{processor_id};
ghost use Rattle.rig_parts.specs.MoveVerdicts.{move_refusal, judged_move};
ghost use Rattle.board.specs.Lent.{tasks_on};
ghost use Rattle.board.specs.Acted.{act_of};
ghost use Rattle.steps.specs.Moves.{CanMove, Moved};

use crate::instruction::refusal::is_accepted;
use board::act::{Act, Size, posted, refused};
use board::sweeps::{depart, locate};
use board::{Board, point_parent, put_task, task_at};
use plan::{ProcessorId, TaskId};
use rules::channel::Hint;
use rules::message::Message;
use rules::rule::Posting;
use rules::step::StepRefusal;
use rules::task::TaskState;

// Why a move of task t to desk `to` is refused, if it is.
pub fn move_refusal(board: &Board, n: Size, t: TaskId, to: u16) -> Result<(), StepRefusal>
    requires { n.tasks ≤ 64 }
    ensures { result ≡ move_refusal n.tasks n.processors (tasks_on board.now) n.used t (processor_id to) }
{
    if !base::is_within(1, base::wide8(n.tasks), base::wide8(t.0)) {
        return Err(StepRefusal::NoTask);
    }
    if !base::is_within(1, base::wide8(n.processors), base::wide16(to)) {
        return Err(StepRefusal::NoProcessor);
    }
    let x = task_at(board, t);
    let e = ProcessorId(to as u8);
    if !task_rules::state::is_in(x, TaskState::Ready) {
        return Err(StepRefusal::NotReady);
    }
    if task_rules::state::is_at(x, e) {
        return Err(StepRefusal::AlreadyThere);
    }
    if x.moves == 9999 {
        return Err(StepRefusal::MovesSpent);
    }
    if 256 <= n.used {
        return Err(StepRefusal::NetworkFull);
    }
    Ok(())
}

// What the move is answered and would post; nothing is changed.
pub fn move_decided(board: &Board, n: Size, t: TaskId, to: u16) -> Act
    requires { n.tasks ≤ 64 }
    ensures { result ≡ act_of (judged_move n.tasks n.processors (tasks_on board.now) n.used t (processor_id to)) }
{
    let q = move_refusal(board, n, t, to);
    if !is_accepted(q) {
        return refused(q);
    }
    let e = ProcessorId(to as u8);
    posted(Posting::Single(Message::Migration(e, t)))
}

// The move, where it is not refused: the task leaves, the pointers of its desk for it as a parent and for what it receives on name
// the desk that it leaves for, and those for what it sends on travel with it.
pub fn move_task<'a>(
    users: &'a [u8; 1024],
    hintprocessors: &'a mut [u8; 768],
    hintmoves: &'a mut [u16; 768],
    board: &'a mut Board,
    n: Size,
    t: TaskId,
    to: u16,
) -> Act
    requires { CanMove users.now board.old n.tasks t }
    ensures { Moved users.now n t (processor_id to)
        hintprocessors.old hintmoves.old board.old result
        hintprocessors.new hintmoves.new board.new }
{
    let r = move_decided(board, n, t, to);
    if !is_accepted(r.answer) {
        return r;
    }
    let x = task_at(board, t);
    let d = x.processor;
    let e = ProcessorId(to as u8);
    let h = Hint {
        processor: e,
        moves: x.moves + 1,
    };
    put_task(board, t, x.departure());
    point_parent(board, d, t, h);
    locate(users, hintprocessors, hintmoves, t, d, h);
    depart(users, hintprocessors, hintmoves, board, t, d);
    r
}
