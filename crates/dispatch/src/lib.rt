// The dispatcher of a desk: one call, over any rig; and calls at the desks in turn, from the start of a plan.
#![tactic(auto)]

// The steps that calls at the desks in turn choose.
pub mod choose;
// Which letter a call delivers.
pub mod mail;
// Whether a rig is at rest.
pub mod rest;

ghost use Rattle.std.specs.Prelude.{◌≡◌, ◌≤◌, ◌-◌, set};
ghost use Rattle.rules.specs.Systems.{with_chosen, chosen_at};
ghost use Rattle.rules.specs.Dispatch.{delivery_turn, run_turn, undispatched, dispatched};
ghost use Rattle.dispatch.specs.Turns.{TurnedBy, MadeBy};

use mail::earliest;
use plan::ProcessorId;
use rules::dispatch::Dispatched;
use rules::step::{Report, Step, StepRefusal};
use rules::system::System;
use task_rules::ready::next_ready;

// A step that a call makes, or none, and the rig then.
#[derive(Clone, Copy)]
pub struct Turned {
    pub turn: Option<(Step, Report)>,
    pub system: System,
}

// An ordinary step is made, whatever its answer.
fn made(r: System, s: Step) -> Turned
    ensures { MadeBy r s result }
{
    let q = rig_step::step(r, s);
    Turned {
        turn: Some((s, q.report)),
        system: q.system,
    }
}

// The earliest letter addressed to the desk is delivered, if there is one.
fn delivery_turn(r: System, d: ProcessorId) -> Turned
    requires { r.network.used ≤ 256 }
    ensures { TurnedBy (delivery_turn r d) result }
{
    let p = earliest(r.network, d);
    if p == 0 {
        return Turned {
            turn: None,
            system: r,
        };
    }
    let s = Step {
        kind: 2,
        task: 0,
        number: p,
    };
    made(r, s)
}

// The last choice at k becomes t.
fn choosing(mut r: System, k: usize, t: u8) -> System
    requires { k ≤ 5 }
    ensures { result ≡ with_chosen r (set r.chosen k t) }
{
    r.chosen[k] = t;
    r
}

// The next ready task after the last one chosen is run, if there is one; a refused run uses the turn.
fn run_turn(r: System, d: ProcessorId) -> Turned
    requires { (1 ≤ d.0) × (d.0 ≤ 6) × (r.plan.tasks ≤ 64) × (chosen_at r d ≤ 64) }
    ensures { TurnedBy (run_turn r d) result }
{
    let k = d.0 as usize - 1;
    let last = r.chosen[k];
    let t = next_ready(r.plan.tasks, last, r.tasks.ready[k]);
    if t == 0 {
        return Turned {
            turn: None,
            system: r,
        };
    }
    let s = Step {
        kind: 1,
        task: t,
        number: 0,
    };
    made(choosing(r, k, t), s)
}

// A refused call makes no step and gives the rig back.
fn undispatched(r: System, a: Result<(), StepRefusal>) -> Dispatched
    ensures { result ≡ undispatched r a }
{
    Dispatched {
        answer: a,
        delivery: None,
        run: None,
        system: r,
    }
}

// A call at desk d: 9 first, then 15; then a delivery, and from what it leaves a run.
pub fn dispatch(r: System, d: ProcessorId) -> Dispatched
    ensures { result ≡ dispatched r d }
{
    if !rig_check::system::system_ok(r) {
        return undispatched(r, Err(StepRefusal::BadSystem));
    }
    if !(1..=r.processors).contains(&d.0) {
        return undispatched(r, Err(StepRefusal::NoProcessor));
    }
    let a = delivery_turn(r, d);
    let b = run_turn(a.system, d);
    Dispatched {
        answer: Ok(()),
        delivery: a.turn,
        run: b.turn,
        system: b.system,
    }
}
