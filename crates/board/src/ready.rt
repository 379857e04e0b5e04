// The sets of ready tasks on a board: what is read of them, and what a task that is stored changes.
ghost use Rattle.std.specs.Prelude.{◌≡◌, ◌≤◌, ◌-◌, eqb, get_or};
ghost use Rattle.base.specs.Choice.{pick};
ghost use Rattle.base.specs.Sets.{inserted, removed};
ghost use Rattle.board.specs.packing.Packed.{ready_desk};
ghost use Rattle.board.specs.Lent.{Whole, tasks_on, ready_moved, SetPut};

use crate::Board;
use plan::{ProcessorId, TaskId};

// Desk d's set.
pub fn ready_at(board: &Board, d: ProcessorId) -> u64
    requires { (1 ≤ d.0) × (d.0 ≤ 6) }
    ensures { result ≡ get_or (tasks_on board.now).ready (d.0 - 1) 0 }
{
    board[1087 + d.0 as usize]
}

// Desk d's set becomes s.
pub fn put_set(board: &mut Board, d: ProcessorId, s: u64)
    requires { (1 ≤ d.0) × (d.0 ≤ 6) × Whole board.old }
    ensures { SetPut (λ e x. pick (eqb d.0 e) s x) board.old board.new }
{
    let at = 1087 + d.0 as usize;
    board[at] = s;
}

// The set with t where it joins, or without t.
fn with_or_without(joins: bool, s: u64, t: u8) -> u64
    requires { (1 ≤ t) × (t ≤ 64) }
    ensures { result ≡ pick joins (inserted t s) (removed t s) }
{
    if joins {
        task_rules::set::insert(s, t)
    } else {
        task_rules::set::remove(s, t)
    }
}

// Task t joins or leaves the set of desk d, if there is such a desk.
fn change(board: &mut Board, t: TaskId, d: u8, joins: bool)
    requires { (1 ≤ t.0) × (t.0 ≤ 64) × Whole board.old }
    ensures { SetPut (λ e s. pick (eqb d e) (pick joins (inserted t.0 s) (removed t.0 s)) s) board.old board.new }
{
    if 1 <= d && d <= 6 {
        let n = 1087 + d as usize;
        board[n] = with_or_without(joins, board[n], t.0);
    }
}

// The first number of task t becomes another: most often it stays ready where it was, or is not ready, and no set is touched.
pub fn put_ready(board: &mut Board, t: TaskId, old: u64, new: u64)
    requires { (1 ≤ t.0) × (t.0 ≤ 64) × Whole board.old }
    ensures { SetPut (ready_moved t.0 (ready_desk old) (ready_desk new)) board.old board.new }
{
    let was = crate::packing::ready_desk(old);
    let is = crate::packing::ready_desk(new);
    if was != is {
        change(board, t, was, false);
        change(board, t, is, true);
    }
}
