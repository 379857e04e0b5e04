// The lines behind those of the steps: one for each marked task, and the last.
ghost use Rattle.std.specs.Prelude.{◌≡◌, ◌≤◌, length, get_or};
ghost use Rattle.board.specs.Lent.{tasks_on};
ghost use Rattle.trace.specs.Lines.{end_text};
ghost use Rattle.run.specs.all_steps.Writes.{LinesNext, LineNext};
ghost use Rattle.run.specs.file.Writes.{mark_line, mark_lines};

use crate::lines::note;
use board::{Board, task_at};
use plan::TaskId;
use trace::direct::{emit_end, emit_over};

// The line of task t behind those before it, where the task is marked.
fn emit_mark<'a>(out: &'a mut [u8], progress: &'a mut [usize; 2], board: &'a Board, t: u8)
    requires { (t ≤ 64) × (length progress.old ≡ 2) × (get_or progress.old 0 0 ≤ length out.old) }
    ensures { LinesNext (mark_line (tasks_on board.now) t) progress.old out.old progress.new out.new }
{
    if progress[1] != 0 {
        return;
    }
    let x = task_at(board, TaskId(t));
    if !x.overflow {
        return;
    }
    let written = emit_over(out, progress[0], t as usize);
    note(progress, written);
}

// Those of tasks 1 to `tasks`, by rising number.
pub fn emit_marks<'a>(out: &'a mut [u8], progress: &'a mut [usize; 2], board: &'a Board, tasks: u8)
    requires { (tasks ≤ 64) × (length progress.old ≡ 2) × (get_or progress.old 0 0 ≤ length out.old) }
    ensures { LinesNext (mark_lines (tasks_on board.now) tasks) progress.old out.old progress.new out.new }
{
    for t in 0..tasks {
        emit_mark(out, progress, board, t + 1);
    }
}

// The last line behind those before it.
pub fn emit_last<'a>(out: &'a mut [u8], progress: &'a mut [usize; 2], rest: bool, messages: usize)
    requires { (messages ≤ 256) × (length progress.old ≡ 2) × (get_or progress.old 0 0 ≤ length out.old) }
    ensures { LineNext (end_text rest messages) progress.old out.old progress.new out.new }
{
    if progress[1] != 0 {
        return;
    }
    let written = emit_end(out, progress[0], rest, messages);
    note(progress, written);
}
