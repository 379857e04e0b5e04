// A mover letter.
ghost use Rattle.std.specs.Prelude.{List, ℕ};
ghost use Rattle.board.specs.Lent.{lent};
ghost use Rattle.board.specs.Rigs.{Opened};
ghost use Rattle.steps.specs.message.TaskMessages.{MoverOpens};

use board::act::{Act, posted};
use board::sweeps::arrive;
use board::{Board, parent_at, put_parent, put_task, task_at};
use rules::channel::Hint;
use rules::message::Message;
use rules::rule::Posting;
use rules::task::TaskState;

// A moving task arrives, and the children that are held there for it leave its set; another stays as it is.
pub fn mover<'a>(
    users: &'a [u8; 1024],
    hintprocessors: &'a mut [u8; 768],
    hintmoves: &'a mut [u16; 768],
    heldprocessors: &'a mut [u8; 768],
    heldnumbers: &'a mut [u8; 768],
    board: &'a mut Board,
    m: Message,
) -> Act
    requires { MoverOpens users.now hintprocessors.old hintmoves.old heldprocessors.old heldnumbers.old board.old m }
    ensures { (codes notes : List ℕ)
        → Opened codes users.now m
        (lent hintprocessors.old hintmoves.old heldprocessors.old heldnumbers.old notes board.old)
        result
        (lent hintprocessors.new hintmoves.new heldprocessors.new heldnumbers.new notes board.new) }
{
    let Message::Migration(d, t) = m else {
        return posted(Posting::Nothing);
    };
    let a = task_at(board, t);
    if !task_rules::state::is_in(a, TaskState::Moving) {
        return posted(Posting::Nothing);
    }
    let e = parent_at(board, d, t);
    let here = a.arrival(d);
    let y = task_rules::children::without_children(here, e.held);
    put_task(board, t, y);
    let entry = task_rules::parents::arrival_parent(d, a.moves);
    put_parent(board, d, t, entry);
    let h = Hint {
        processor: d,
        moves: a.moves,
    };
    arrive(
        users,
        hintprocessors,
        hintmoves,
        heldprocessors,
        heldnumbers,
        board,
        t,
        h,
    );
    posted(Posting::Nothing)
}
