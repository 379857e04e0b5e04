// Why a run is refused, before what its instruction does is looked at; whether an answer refuses.
ghost use Rattle.std.specs.Prelude.{◌≡◌};
ghost use Rattle.rules.specs.Answers.{is_accepted};
ghost use Rattle.rig_parts.specs.RunVerdicts.{run_refusal};
ghost use Rattle.board.specs.Lent.{tasks_on};
ghost use Rattle.steps.specs.instruction.Refusals.{Placed};

use crate::instruction::next::next_of;
use board::Board;
use plan::TaskId;
use rules::step::StepRefusal;

// 10, 11 or 12 to a run of task t; accepted where none refuses.
pub fn run_refusal<'a>(
    codes: &'a [u32; 4096],
    board: &'a Board,
    count: u8,
    t: TaskId,
) -> Result<(), StepRefusal>
    requires { Placed count (tasks_on board.now) }
    ensures { result ≡ run_refusal codes.now count (tasks_on board.now) t }
{
    next_of(codes, board, count, t)?;
    Ok(())
}

// Whether an answer refuses nothing.
pub fn is_accepted(q: Result<(), StepRefusal>) -> bool
    ensures { result ≡ is_accepted q }
{
    q.is_ok()
}
