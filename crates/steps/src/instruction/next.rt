// What a run of a task finds.
ghost use Rattle.std.specs.Prelude.{◌≡◌};
ghost use Rattle.board.specs.Lent.{tasks_on};
ghost use Rattle.steps.specs.instruction.Refusals.{Placed};
ghost use Rattle.steps.specs.instruction.Nexts.{next_of};

use board::{Board, task_at};
use plan::{FINISH, Instruction, TaskId};
use rules::step::StepRefusal;
use rules::task::{Task, TaskState};

// What a run of task t finds, its record and its next instruction, or why it is refused: 10, no such task; 11, not ready; 12, a
// finish with living children.
pub fn next_of<'a>(
    codes: &'a [u32; 4096],
    board: &'a Board,
    count: u8,
    t: TaskId,
) -> Result<(Task, Instruction), StepRefusal>
    requires { Placed count (tasks_on board.now) }
    ensures { result ≡ next_of codes.now count (tasks_on board.now) t }
{
    if !base::is_within(1, base::wide8(count), base::wide8(t.0)) {
        return Err(StepRefusal::NoTask);
    }
    let x = task_at(board, t);
    if !task_rules::state::is_in(x, TaskState::Ready) {
        return Err(StepRefusal::NotReady);
    }
    let i = board::fetch::instruction_in(codes, t, x.pc);
    if i.opcode == FINISH {
        if !task_rules::children::is_childless(x) {
            return Err(StepRefusal::FinishWithChildren);
        }
    }
    Ok((x, i))
}
