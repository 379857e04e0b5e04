// The sets of ready tasks of a board, as its tasks give them: one pass over the tasks makes all six.
ghost use Rattle.std.specs.Prelude.{◌≡◌, ◌≤◌};
ghost use Rattle.rules.specs.Sound.{ready_ok};
ghost use Rattle.board.specs.Lent.{tasks_on};
ghost use Rattle.rig_read.specs.Passing.{ReadySets};

use board::Board;
use board::packing::ready_desk;
use task_rules::set::insert;

// Of each desk, at its number, those of tasks 1 to m that are ready there.
fn ready_sets(m: u8, board: &Board) -> [u64; 7]
    requires { m ≤ 64 }
    ensures { ReadySets m board.now result }
{
    let mut sets = [0u64; 7];
    for t in 0..m {
        let d = ready_desk(board[128 + 2 * t as usize]) as usize;
        if 1 <= d && d <= 6 {
            sets[d] = insert(sets[d], t + 1);
        }
    }
    sets
}

// No stored set differs from the tasks, of which there are m.
pub fn ready_ok(m: u8, board: &Board) -> bool
    requires { m ≤ 64 }
    ensures { result ≡ ready_ok m (tasks_on board.now) }
{
    let sets = ready_sets(m, board);
    for d in 0..6 {
        if board[1088 + d] != sets[d + 1] {
            return false;
        }
    }
    true
}
