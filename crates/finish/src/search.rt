// Which task can run: those after the last one first, then round again.
ghost use Rattle.std.specs.Prelude.{◌≤◌};
ghost use Rattle.board.specs.Lent.{tasks_on};
ghost use Rattle.steps.specs.instruction.Refusals.{Placed};
ghost use Rattle.finish.specs.Searches.{Found};

use board::Board;
use plan::TaskId;
use steps::instruction::refusal::run_refusal;

// A task of low + 1 to high that can run; 0 if there is none.
fn search<'a>(codes: &'a [u32; 4096], board: &'a Board, count: u8, low: u8, high: u8) -> u8
    requires { (Placed count (tasks_on board.now)) × (low ≤ high) × (high ≤ 64) }
    ensures { Found codes.now count (tasks_on board.now) low high result }
{
    for k in low..high {
        let t = k + 1;
        if run_refusal(codes, board, count, TaskId(t)).is_ok() {
            return t;
        }
    }
    0
}

// A task of 1 to `count` that can run, and those after `last` come first; 0 if there is none.
pub fn runnable<'a>(codes: &'a [u32; 4096], board: &'a Board, count: u8, last: u8) -> u8
    requires { (Placed count (tasks_on board.now)) × (last ≤ count) }
    ensures { Found codes.now count (tasks_on board.now) 0 count result }
{
    let t = search(codes, board, count, last, count);
    if t != 0 {
        return t;
    }
    search(codes, board, count, 0, last)
}
