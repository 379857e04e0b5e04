// Whether a rig is refused by 9.
ghost use Rattle.std.specs.Prelude.{true, ◌≡◌, ◌<◌, ◌≤◌, get_or};
ghost use Rattle.base.specs.Choice.{within};
ghost use Rattle.plan.specs.Answers.{is_accepted};
ghost use Rattle.plan.specs.Programs.{programs};
ghost use Rattle.plan.specs.Refusals.{sizes_ok, plan_answer};
ghost use Rattle.rules.specs.Sound.{system_ok};
ghost use Rattle.rules.specs.Systems.{meaning};
ghost use Rattle.rig_check.specs.system.Tasks.{last_kind, tasks_ok, origins_ok};

use crate::tasks::{origin_ok, task_ok};
use crate::{network, ready, tables};
use plan::{Instruction, Plan};
use rules::system::System;

// A plan that 2 to 6 would not refuse.
fn plan_ok(p: Plan) -> bool
    ensures { result ≡ is_accepted (plan_answer (programs p)) }
{
    plan_value::check(p).is_ok()
}

// A number of desks.
pub fn processors_ok(n: u8) -> bool
    ensures { result ≡ within 1 6 n }
{
    1 <= n && n <= 6
}

// The kind of the last executed instruction of task k + 1, which is at place pc; 0 where there is none. The 0 is the contract's.
pub fn last_kind<'a>(lengths: &'a [u8; 64], codes: &'a [u32; 4096], k: usize, pc: u8) -> u8
    requires { (k < 64) × (get_or lengths.now k 0 ≤ 64) }
    ensures { result ≡ last_kind lengths.now codes.now k pc }
{
    let place = pc as usize;
    if place <= 1 || lengths[k] as usize <= place - 2 {
        return 0;
    }
    Instruction::of(codes[64 * k + (place - 2)]).opcode
}

// Tasks 1 to T, of a rig whose plan's sizes are in range.
fn tasks_ok(r: System) -> bool
    requires { sizes_ok (meaning r) ≡ true }
    ensures { result ≡ tasks_ok r }
{
    let ts = r.tasks;
    let n = r.processors;
    let p = r.plan;
    let m = p.tasks;
    for k in 0..m as usize {
        let x = ts.records[k];
        let kind = last_kind(&p.lengths, &p.codes, k, x.pc);
        if !task_ok(n, m, p.lengths[k], kind, x) {
            return false;
        }
    }
    true
}

// The own pointers of tasks 1 to T, of a rig whose plan's sizes are in range.
fn origins_ok(r: System) -> bool
    requires { sizes_ok (meaning r) ≡ true }
    ensures { result ≡ origins_ok r }
{
    let ts = r.tasks;
    let n = r.processors;
    let p = r.plan;
    for k in 0..p.tasks as usize {
        if !origin_ok(n, k + 1, ts.records[k]) {
            return false;
        }
    }
    true
}

// Refusal 9, of any rig: true where it is not refused. The number of desks and the plan come first,
// since the rest is read by them.
#[tactic(auto, unfolding(rules::specs::Sound::system_ok, rules::specs::Sound::chosen_ok))]
pub fn system_ok(r: System) -> bool
    ensures { result ≡ system_ok r }
{
    let n = r.processors;
    let p = r.plan;
    let m = p.tasks;
    if !processors_ok(n) {
        return false;
    }
    if !plan_ok(p) {
        return false;
    }
    tasks_ok(r)
        && origins_ok(r)
        && tables::tables_ok(n, r.tables)
        && tables::channel_entries_ok(n, r.channels)
        && tables::parents_ok(n, m, r.parents)
        && ready::ready_ok(m, r.tasks)
        && tables::all_at_most(m, &r.chosen)
        && network::network_ok(n, m, r.network)
}
