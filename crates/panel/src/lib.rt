// What can be pressed now: how many steps of a rig get each number.
#![tactic(auto)]

// The counts of runs, of deliveries and of moves, on what is lent.
pub mod counts;
// The panel after a plan file and a step file.
pub mod file;
// Counts put into lent numbers.
pub mod output;

ghost use Rattle.std.specs.Prelude.{true, ◌≡◌, ◌≤◌, length};
ghost use Rattle.rules.specs.Panel.{panel_steps, countable, panel};
ghost use Rattle.rules.specs.Sound.{system_ok};
ghost use Rattle.rules_laws.specs.Shapes.{Shaped};
ghost use Rattle.panel_laws.specs.Tallies.{tallied, all_get};

use board::act::Size;
use counts::counts_on;
use plan_index::user_table::users::build;
use rig_parts::kept::Kept;
use rules::system::{Store, System};

// Whether a panel's steps are counted: T and n are within the limits.
fn is_countable(r: System) -> bool
    ensures { result ≡ countable r }
{
    (1..=64).contains(&r.plan.tasks) && (1..=6).contains(&r.processors)
}

// All steps of a panel of m tasks and n desks under 9 alone.
fn all_nine(m: u8, n: u8) -> [u16; 27]
    requires { (m ≤ 64) × (n ≤ 6) }
    ensures { result ≡ all_get 9 (length (panel_steps m n)) }
{
    let tasks = m as u16;
    let mut q = [0u16; 27];
    q[9] = tasks + 256 + tasks * (n as u16);
    q
}

// The panel of a rig that 9 does not refuse: the rig is put on a board.
fn ruled(r: System) -> [u16; 27]
    requires { (system_ok r ≡ true) × (Shaped r) }
    ensures { result ≡ tallied r (panel_steps r.plan.tasks r.processors) }
{
    let e = plan_index::ends::derive(r.plan);
    let mut users = [0u8; 1024];
    build(&e.senders, &e.receivers, &e.parents, &mut users);
    let store = Store {
        tables: r.tables,
        channels: r.channels,
    };
    let kept = Kept {
        store,
        parents: r.parents,
    };
    let mut board = [0u64; 1094];
    rig_step::put::put_rig(&mut board, r.tasks, kept);
    let n = Size {
        tasks: r.plan.tasks,
        processors: r.processors,
        used: r.network.used,
    };
    counts_on(
        &r.plan.codes,
        &e.numbers,
        &users,
        &r.tables.hintprocessors,
        &r.tables.hintmoves,
        &r.tables.heldprocessors,
        &r.tables.heldnumbers,
        &r.tables.notes,
        &board,
        n,
    )
}

// The panel of any rig; 9 is tested once.
pub fn panel(r: System) -> [u16; 27]
    ensures { result ≡ panel r }
{
    if !is_countable(r) {
        return [0u16; 27];
    }
    if !rig_step::passes(r) {
        return all_nine(r.plan.tasks, r.processors);
    }
    ruled(r)
}
