// A rule for each channel of a task that is born, leaves or arrives, along the links of its channels.

// The rules for one that arrives.
mod arrival;

ghost use Rattle.std.specs.Prelude.{◌≤◌};
ghost use Rattle.rig_parts.specs.declared.sweep.CellRule.TheVariants.{Locate, DepartSending};
ghost use Rattle.rig_parts.specs.declared.sweep.Sweep.TheVariants.{Arrival};
ghost use Rattle.rig_parts.specs.Sweeps.{ruled_at, for_ends, swept};
ghost use Rattle.plan_index.specs.user_table.Users.{Indexed, senders_of, receivers_of};
ghost use Rattle.board.specs.Lent.{Whole, AtCell};
ghost use Rattle.board.specs.sweeps.Sweeps.{HintsBy, PointersBy, OffersBy};

use crate::{Board, channel_index, entry_beside, hint_entry, put_hint, put_travelling_entry};
use plan::{ChannelId, ProcessorId, TaskId};
use plan_index::user_table::users::{first_received, first_sent, next_received, next_sent};
use rules::channel::Hint;

// The pointer of desk d for channel c travels with its sender.
fn depart_at<'a>(
    hintprocessors: &'a [u8; 768],
    hintmoves: &'a [u16; 768],
    board: &'a mut Board,
    d: ProcessorId,
    c: ChannelId,
)
    requires { (AtCell d c) × Whole board.old }
    ensures { PointersBy (ruled_at DepartSending d c)
        hintprocessors.now hintmoves.now board.old
        hintprocessors.now hintmoves.now board.new }
{
    let k = channel_index(c);
    let i = entry_beside(d, k);
    let h = hint_entry(hintprocessors, hintmoves, i);
    put_travelling_entry(board, k, h);
}

// The pointers of desk d for the channels that task t receives on become h.
pub fn locate<'a>(
    users: &'a [u8; 1024],
    hintprocessors: &'a mut [u8; 768],
    hintmoves: &'a mut [u16; 768],
    t: TaskId,
    d: ProcessorId,
    h: Hint,
)
    requires { (t.0 ≤ 64) × (1 ≤ d.0) × (d.0 ≤ 6) × Indexed users.now }
    ensures { HintsBy (for_ends (receivers_of users.now) t d (Locate h.processor h.moves))
        hintprocessors.old hintmoves.old
        hintprocessors.new hintmoves.new }
{
    let mut c = first_received(users, t);
    while 0 < c {
        put_hint(hintprocessors, hintmoves, d, ChannelId(c), h);
        c = next_received(users, c);
    }
}

// The pointers of desk d for the channels that task t sends on travel with it.
pub fn depart<'a>(
    users: &'a [u8; 1024],
    hintprocessors: &'a [u8; 768],
    hintmoves: &'a [u16; 768],
    board: &'a mut Board,
    t: TaskId,
    d: ProcessorId,
)
    requires { (t.0 ≤ 64) × (1 ≤ d.0) × (d.0 ≤ 6) × (Indexed users.now) × Whole board.old }
    ensures { PointersBy (for_ends (senders_of users.now) t d DepartSending)
        hintprocessors.now hintmoves.now board.old
        hintprocessors.now hintmoves.now board.new }
{
    let mut c = first_sent(users, t);
    while 0 < c {
        depart_at(hintprocessors, hintmoves, board, d, ChannelId(c));
        c = next_sent(users, c);
    }
}

// Task t arrives at the desk that h names, with the count of h.
pub fn arrive<'a>(
    users: &'a [u8; 1024],
    hintprocessors: &'a mut [u8; 768],
    hintmoves: &'a mut [u16; 768],
    heldprocessors: &'a mut [u8; 768],
    heldnumbers: &'a mut [u8; 768],
    board: &'a mut Board,
    t: TaskId,
    h: Hint,
)
    requires { (t.0 ≤ 64) × (1 ≤ h.processor.0) × (h.processor.0 ≤ 6) × (Indexed users.now) × Whole board.old }
    ensures { OffersBy (swept (senders_of users.now) (receivers_of users.now) (Arrival t h.processor h.moves))
        hintprocessors.old hintmoves.old heldprocessors.old heldnumbers.old board.old
        hintprocessors.new hintmoves.new heldprocessors.new heldnumbers.new board.new }
{
    arrival::arrive_receiving(
        users,
        hintprocessors,
        hintmoves,
        heldprocessors,
        heldnumbers,
        board,
        t,
        h,
    );
    arrival::arrive_sending(users, hintprocessors, hintmoves, board, t, h.processor);
}
