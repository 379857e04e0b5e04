// What tablets and the driver show of a task: refusals 9 and 10, then its record.
#![tactic(auto)]

ghost use Rattle.std.specs.Prelude.{◌≡◌, ◌≤◌};
ghost use Rattle.rules.specs.Numbers.{task_number_ok};
ghost use Rattle.rules.specs.Systems.{task_in, task_at};
ghost use Rattle.rules.specs.Views.{tablet_view, driver_view, viewed, tablet_of, driver_of};

use plan::TaskId;
use rules::step::StepRefusal;
use rules::system::{System, TaskTable};
use rules::task::Task;
use rules::view::{DriverView, TabletView};

// A tablet's record of task t.
pub fn tablet_view(t: TaskId, x: Task) -> TabletView
    ensures { result ≡ tablet_view t x }
{
    TabletView {
        task: t,
        state: x.state,
        processor: x.processor,
        pc: x.pc,
    }
}

// The driver's record of task t.
pub fn driver_view(t: TaskId, x: Task) -> DriverView
    ensures { result ≡ driver_view t x }
{
    DriverView {
        tablet: tablet_view(t, x),
        word: x.word,
        children: x.children,
        living: task_rules::children::living(x),
    }
}

// Whether a rig of m tasks has a task t.
pub fn has_task(m: u8, t: TaskId) -> bool
    ensures { result ≡ task_number_ok m t }
{
    1 <= t.0 && t.0 <= m
}

// The record of task t.
fn record_of(tasks: TaskTable, t: TaskId) -> Task
    requires { (1 ≤ t.0) × (t.0 ≤ 64) }
    ensures { result ≡ task_in tasks t }
{
    tasks.records[t.0 as usize - 1]
}

// The record of task t, where neither 9 nor 10 refuses it.
fn task_shown(r: System, t: TaskId) -> Result<Task, StepRefusal>
    ensures { result ≡ viewed r t (task_at r t) }
{
    if !rig_check::system::system_ok(r) {
        return Err(StepRefusal::BadSystem);
    }
    if !has_task(r.plan.tasks, t) {
        return Err(StepRefusal::NoTask);
    }
    Ok(record_of(r.tasks, t))
}

// What a tablet shows of task t.
#[tactic(auto, unfolding(rules::specs::Views::tablet_of))]
pub fn tablet(r: System, t: TaskId) -> Result<TabletView, StepRefusal>
    ensures { result ≡ tablet_of r t }
{
    Ok(tablet_view(t, task_shown(r, t)?))
}

// What the driver shows of task t.
#[tactic(auto, unfolding(rules::specs::Views::driver_of))]
pub fn driver(r: System, t: TaskId) -> Result<DriverView, StepRefusal>
    ensures { result ≡ driver_of r t }
{
    Ok(driver_view(t, task_shown(r, t)?))
}
