// A task on a channel, and the cell of its parts.
ghost use Rattle.std.specs.Prelude.{◌≡◌, ◌≤◌};
ghost use Rattle.rig_parts.specs.Fetches.{is_on_in};

use plan::{ChannelId, ProcessorId, TaskId};
use rules::channel::{Cell, Channel, Entry, Hint, Offer};
use rules::task::{Task, TaskState};

// Task u, with record b, is in state s on channel c.
pub fn is_on(codes: &[u32; 4096], s: TaskState, u: TaskId, c: ChannelId, b: Task) -> bool
    requires { (u.0 ≤ 64) × (b.pc ≤ 65) }
    ensures { result ≡ is_on_in codes.now s u c b }
{
    b.state == s && crate::fetch::is_on(codes, u, c, b.pc)
}

// The cell of these parts.
pub fn cell_of(hint: Hint, held: Offer, noted: ProcessorId, channel: Channel) -> Cell
    ensures { result ≡ record { entry = record { hint = hint; held = held; noted = noted }; channel = channel } }
{
    Cell {
        entry: Entry { hint, held, noted },
        channel,
    }
}
