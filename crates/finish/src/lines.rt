// The lines of the answer, written one behind the other as long as they fit.
ghost use Rattle.std.specs.Prelude.{◌≡◌, ◌≤◌, ◌<◌, length, get_or};
ghost use Rattle.rules.specs.Numbers.{task_id};
ghost use Rattle.rules.specs.Systems.{task_in};
ghost use Rattle.rules.specs.Finish.{verdict_line};
ghost use Rattle.plan_index.specs.user_table.Users.{senders_of, receivers_of};
ghost use Rattle.board.specs.Lent.{tasks_on};
ghost use Rattle.run.specs.all_steps.Writes.{LinesNext, LineNext};
ghost use Rattle.finish.specs.Answers.{Dependent, AllDependent, stuck_line_in, stuck_lines_in, lines_in};

use crate::stuck::{depends_on, finishes, is_stuck};
use board::{Board, task_at};
use plan::TaskId;
use run::lines::note;
use trace::direct::finish::{emit_stuck, emit_verdict};

// The verdict and the number of accepted runs behind the lines before them.
fn emit_first<'a>(out: &'a mut [u8], progress: &'a mut [usize; 2], all: bool, work: usize)
    requires { (work < 100000) × (length progress.old ≡ 2) × (get_or progress.old 0 0 ≤ length out.old) }
    ensures { LineNext (verdict_line all work) progress.old out.old progress.new out.new }
{
    if progress[1] != 0 {
        return;
    }
    let written = emit_verdict(out, progress[0], all, work);
    note(progress, written);
}

// The line of task t behind those before it, where the task is stuck.
fn emit_task<'a>(
    out: &'a mut [u8],
    progress: &'a mut [usize; 2],
    codes: &'a [u32; 4096],
    users: &'a [u8; 1024],
    board: &'a Board,
    t: u8,
)
    requires { (t ≤ 64) × (Dependent codes.now (task_id t) (task_in (tasks_on board.now) (task_id t)))
        × (length progress.old ≡ 2) × (get_or progress.old 0 0 ≤ length out.old) }
    ensures { LinesNext (stuck_line_in codes.now (senders_of users.now) (receivers_of users.now) (tasks_on board.now) t)
        progress.old out.old progress.new out.new }
{
    if progress[1] != 0 {
        return;
    }
    let x = task_at(board, TaskId(t));
    if !is_stuck(x) {
        return;
    }
    let u = depends_on(codes, users, TaskId(t), x);
    let written = emit_stuck(out, progress[0], t as usize, u.0 as usize);
    note(progress, written);
}

// Those of tasks 1 to `count`, by rising number.
fn emit_list<'a>(
    out: &'a mut [u8],
    progress: &'a mut [usize; 2],
    codes: &'a [u32; 4096],
    users: &'a [u8; 1024],
    board: &'a Board,
    count: u8,
)
    requires { (count ≤ 64) × (AllDependent codes.now (tasks_on board.now) count)
        × (length progress.old ≡ 2) × (get_or progress.old 0 0 ≤ length out.old) }
    ensures { LinesNext (stuck_lines_in codes.now (senders_of users.now) (receivers_of users.now) (tasks_on board.now) count)
        progress.old out.old progress.new out.new }
{
    for k in 0..count {
        emit_task(out, progress, codes, users, board, k + 1);
    }
}

// All lines, after so many accepted runs.
pub fn emit_answer<'a>(
    out: &'a mut [u8],
    progress: &'a mut [usize; 2],
    codes: &'a [u32; 4096],
    users: &'a [u8; 1024],
    board: &'a Board,
    count: u8,
    work: usize,
)
    requires { (count ≤ 64) × (AllDependent codes.now (tasks_on board.now) count) × (work < 100000)
        × (length progress.old ≡ 2) × (get_or progress.old 0 0 ≤ length out.old) }
    ensures { LinesNext (lines_in codes.now (senders_of users.now) (receivers_of users.now) (tasks_on board.now) count work)
        progress.old out.old progress.new out.new }
{
    let all = finishes(board, count);
    emit_first(out, progress, all, work);
    emit_list(out, progress, codes, users, board, count);
}
