// The sets of ready tasks, of all six desks, as the tasks give them.
ghost use Rattle.std.specs.Prelude.{◌≡◌, ◌≤◌};
ghost use Rattle.base.specs.Choice.{pick};
ghost use Rattle.base.specs.Sets.{inserted, set_of};
ghost use Rattle.rules.specs.Numbers.{task_id};
ghost use Rattle.rules.specs.Systems.{task_in, is_ready_at};
ghost use Rattle.rules.specs.Sound.{ready_ok};

use plan::ProcessorId;
use rules::system::TaskTable;
use task_rules::ready::is_ready_at;
use task_rules::set::insert;

// The set with t, where the test holds.
pub fn insert_where(holds: bool, s: u64, t: u8) -> u64
    requires { (1 ≤ t) × (t ≤ 64) }
    ensures { result ≡ pick holds (inserted t s) s }
{
    if holds { insert(s, t) } else { s }
}

// Those of tasks 1 to m that are ready at desk d.
fn ready_set(m: u8, ts: TaskTable, d: ProcessorId) -> u64
    requires { m ≤ 64 }
    ensures { result ≡ set_of m (λ t. is_ready_at d (task_in ts (task_id t))) }
{
    let mut s: u64 = 0;
    for t in 0..m {
        let x = ts.records[t as usize];
        s = insert_where(is_ready_at(x, d), s, t + 1);
    }
    s
}

// No stored set differs from the rig, of m tasks.
pub fn ready_ok(m: u8, ts: TaskTable) -> bool
    requires { m ≤ 64 }
    ensures { result ≡ ready_ok m ts }
{
    for d in 0..6 {
        if ts.ready[d as usize] != ready_set(m, ts, ProcessorId(d + 1)) {
            return false;
        }
    }
    true
}
