// Whether the rig is at rest, by its tasks.
ghost use Rattle.std.specs.Prelude.{◌≡◌};
ghost use Rattle.board.specs.Lent.{tasks_on};
ghost use Rattle.steps.specs.instruction.Refusals.{Placed};
ghost use Rattle.rig.specs.rest.Rests.{quiet_in};

use board::Board;
use plan::TaskId;
use steps::instruction::refusal::{is_accepted, run_refusal};

// No letter, and no task that can run.
pub fn at_rest<'a>(count: u8, codes: &'a [u32; 4096], board: &'a Board, used: usize) -> bool
    requires { Placed count (tasks_on board.now) }
    ensures { result ≡ quiet_in count codes.now (tasks_on board.now) used }
{
    if used != 0 {
        return false;
    }
    for k in 0..count {
        if is_accepted(run_refusal(codes, board, count, TaskId(k + 1))) {
            return false;
        }
    }
    true
}
