// One step of any rig: 9 is tested, the rig is packed, the step is decided and carried out as a run of one step.
#![tactic(auto)]

// A step without its mail.
pub mod act;
// The four bytes of a step.
pub mod bytes;
// The parts of a rig put on a board, and back.
mod pack;
// A rig put on a board.
pub mod put;
// The run of one step.
pub mod turn;

ghost use Rattle.std.specs.Prelude.{◌≡◌};
ghost use Rattle.rules.specs.Sound.{system_ok};
ghost use Rattle.rules.specs.Steps.{step, refused};
ghost use Rattle.rules_laws.specs.Shapes.{Shaped};

use rig_parts::kept::Kept;
use rules::step::{Report, Step, StepRefusal, Stepped};
use rules::system::{Store, System};
use turn::turn;

// A refused step gives the rig back.
fn refused(r: System, a: Result<(), StepRefusal>) -> Stepped
    ensures { result ≡ refused r a }
{
    let report = Report {
        answer: a,
        received: None,
    };
    Stepped { report, system: r }
}

// Whether 9 does not refuse a rig; a rig's arrays have their sizes.
pub fn passes(r: System) -> bool
    ensures { (result ≡ system_ok r) × (Shaped r) }
{
    rig_check::system::system_ok(r)
}

// 9 first, then as the paper orders. The rig is taken apart, and put together again.
pub fn step(r: System, s: Step) -> Stepped
    ensures { result ≡ step r s }
{
    if !passes(r) {
        return refused(r, Err(StepRefusal::BadSystem));
    }
    let e = plan_index::ends::derive(r.plan);
    let store = Store {
        tables: r.tables,
        channels: r.channels,
    };
    let kept = Kept {
        store,
        parents: r.parents,
    };
    let t = turn(
        r.plan.tasks,
        &r.plan.codes,
        &e.numbers,
        &e.senders,
        &e.receivers,
        &e.parents,
        r.processors,
        r.tasks,
        r.network,
        kept,
        s,
    );
    let system = System {
        tasks: t.tasks,
        tables: t.kept.store.tables,
        channels: t.kept.store.channels,
        parents: t.kept.parents,
        network: t.network,
        ..r
    };
    Stepped {
        report: t.report,
        system,
    }
}
