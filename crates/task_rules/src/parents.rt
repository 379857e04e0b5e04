// What a desk keeps for a parent: a pointer, and children that are held.
ghost use Rattle.std.specs.Prelude.{◌≡◌, ◌≤◌};
ghost use Rattle.rules.specs.Local.{holding_child};
ghost use Rattle.rules.specs.Starts.{pointing};
ghost use Rattle.rules.specs.Arrivals.{arrival_parent};

use crate::set;
use plan::{ProcessorId, TaskId};
use rules::channel::Hint;
use rules::system::ParentEntry;

// Child t is held for the parent.
pub fn holding_child(mut e: ParentEntry, t: TaskId) -> ParentEntry
    requires { (1 ≤ t.0) × (t.0 ≤ 64) }
    ensures { result ≡ holding_child e t }
{
    e.held = set::insert(e.held, t.0);
    e
}

// Another pointer.
pub fn pointing(mut e: ParentEntry, h: Hint) -> ParentEntry
    ensures { result ≡ pointing e h }
{
    e.hint = h;
    e
}

// At desk d, where the parent arrives with its count.
pub fn arrival_parent(d: ProcessorId, moves: u16) -> ParentEntry
    ensures { result ≡ arrival_parent d moves }
{
    ParentEntry {
        hint: Hint {
            processor: d,
            moves,
        },
        held: 0,
    }
}
