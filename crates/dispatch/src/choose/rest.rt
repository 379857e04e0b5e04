// Whether the rig on a lent board is at rest. Ready tasks are asked first: where one of them can run, no other is looked at.
ghost use Rattle.std.specs.Prelude.{◌≡◌, true, false, ◌≤◌};
ghost use Rattle.board.specs.Lent.{tasks_on};
ghost use Rattle.steps.specs.instruction.Refusals.{Placed};
ghost use Rattle.rig.specs.rest.Rests.{quiet_in};

use board::Board;
use board::ready::ready_at;
use plan::{ProcessorId, TaskId};
use rig::rest::at_rest;
use steps::instruction::refusal::{is_accepted, run_refusal};
use task_rules::ready::next_ready;

// A task of the set s can run, so that the rig is not at rest; where this says no, nothing is known.
fn one_runs<'a>(count: u8, codes: &'a [u32; 4096], board: &'a Board, s: u64) -> bool
    requires { Placed count (tasks_on board.now) }
    ensures { result ≡ true → quiet_in count codes.now (tasks_on board.now) 0 ≡ false }
{
    let mut last: u8 = 0;
    while last < count {
        let t = next_ready(count, last, s);
        if t <= last {
            return false;
        }
        let q = run_refusal(codes, board, count, TaskId(t));
        if is_accepted(q) {
            return true;
        }
        last = t;
    }
    false
}

// No letter, and no task that can run, unless it is known that the rig is awake. `at_rest` of `rig`, which looks at every task, is asked
// where no ready task of a desk can run.
pub fn rests_on<'a>(
    awake: bool,
    count: u8,
    processors: u8,
    codes: &'a [u32; 4096],
    board: &'a Board,
    used: usize,
) -> bool
    requires { (awake ≡ true → quiet_in count codes.now (tasks_on board.now) used ≡ false) × (processors ≤ 6) × Placed count (tasks_on board.now) }
    ensures { result ≡ quiet_in count codes.now (tasks_on board.now) used }
{
    if awake {
        return false;
    }
    if used != 0 {
        return false;
    }
    for d in 0..processors {
        let set = ready_at(board, ProcessorId(d + 1));
        if one_runs(count, codes, board, set) {
            return false;
        }
    }
    at_rest(count, codes, board, used)
}
