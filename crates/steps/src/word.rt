// A run that changes nothing but a word and a mark: the loop's short cut, to which the board alone is lent.
ghost use Rattle.std.specs.Prelude.{◌≡◌, ◌<◌, ◌≤◌};
ghost use Rattle.rules.specs.Systems.{task_in};
ghost use Rattle.board.specs.Lent.{Whole, tasks_on, TaskPut};
ghost use Rattle.board.specs.Rigs.{RunsOn, Worded};
ghost use Rattle.steps.specs.Words.{word_changed};

use board::act::Size;
use board::{Board, put_first_level, put_task, task_at};
use plan::{Instruction, SET, TaskId};
use rules::step::Step;
use rules::task::{Task, TaskState};

// What a set or an add leaves of its task. It is compiled into both callers, of which one knows the level.
#[inline(always)]
fn word_changed(x: Task, i: Instruction) -> Task
    requires { x.pc < 255 }
    ensures { result ≡ word_changed x i }
{
    if i.opcode == SET {
        return task_rules::instructions::set_rule(x, i);
    }
    task_rules::instructions::add_rule(x, i)
}

// Task t, with record x, has carried out its set or add i.
fn change(board: &mut Board, t: TaskId, x: Task, i: Instruction)
    requires { (t.0 ≤ 64) × (x.pc < 255) × Whole board.old }
    ensures { TaskPut t (word_changed x i) board.old board.new }
{
    let y = word_changed(x, i);
    put_task(board, t, y);
}

// The same where i is about level 0: the other levels are not taken apart.
fn change_first_level(board: &mut Board, t: TaskId, x: Task, i: Instruction)
    requires { (1 ≤ t.0) × (t.0 ≤ 64) × (x.pc < 255) × Whole board.old × (i.level ≡ 0) × (x ≡ task_in (tasks_on board.old) t) }
    ensures { TaskPut t (word_changed x i) board.old board.new }
{
    let y = word_changed(x, i);
    put_first_level(board, t, y);
}

// Such a run is carried out; else nothing is.
pub fn word_run<'a>(codes: &'a [u32; 4096], board: &'a mut Board, n: Size, s: Step) -> bool
    requires { (Whole board.old) × (RunsOn codes.now n board.old) }
    ensures { Worded codes.now n s board.old result board.new }
{
    if s.kind != 1 {
        return false;
    }
    if s.number != 0 {
        return false;
    }
    if !base::is_within(1, base::wide8(n.tasks), base::wide8(s.task)) {
        return false;
    }
    let t = TaskId(s.task);
    let x = task_at(board, t);
    if !task_rules::state::is_in(x, TaskState::Ready) {
        return false;
    }
    let i = board::fetch::instruction_in(codes, t, x.pc);
    if i.opcode < SET {
        return false;
    }
    if i.level == 0 {
        change_first_level(board, t, x, i);
        return true;
    }
    change(board, t, x, i);
    true
}
