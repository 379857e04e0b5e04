// A rule for each channel of a task that arrives: for those that it receives on, and for those that it sends on.
ghost use Rattle.std.specs.Prelude.{◌≤◌};
ghost use Rattle.rig_parts.specs.declared.sweep.CellRule.TheVariants.{ArriveReceiving, ArriveSending};
ghost use Rattle.rig_parts.specs.Sweeps.{ruled_at, for_ends};
ghost use Rattle.plan_index.specs.user_table.Users.{Indexed, senders_of, receivers_of};
ghost use Rattle.board.specs.Lent.{Whole, AtCell};
ghost use Rattle.board.specs.sweeps.Sweeps.{PointersBy, OffersBy};

use crate::{
    Board, channel_entry, channel_index, entry_beside, held_entry, hint_entry, put_channel_entry,
    put_held_entry, put_hint_entry, put_travelling_entry, travelling_entry,
};
use plan::{ChannelId, ProcessorId, TaskId};
use plan_index::user_table::users::{first_received, first_sent, next_received, next_sent};
use rules::channel::Hint;

// The receiver of channel c is here: the pointer becomes h, which names this desk, and the held offer is carried if it counts and is larger.
fn arrive_receiving_at<'a>(
    hintprocessors: &'a mut [u8; 768],
    hintmoves: &'a mut [u16; 768],
    heldprocessors: &'a mut [u8; 768],
    heldnumbers: &'a mut [u8; 768],
    board: &'a mut Board,
    c: ChannelId,
    h: Hint,
)
    requires { (AtCell h.processor c) × Whole board.old }
    ensures { OffersBy (ruled_at (ArriveReceiving h.processor h.moves) h.processor c)
        hintprocessors.old hintmoves.old heldprocessors.old heldnumbers.old board.old
        hintprocessors.new hintmoves.new heldprocessors.new heldnumbers.new board.new }
{
    let k = channel_index(c);
    let i = entry_beside(h.processor, k);
    let o = held_entry(heldprocessors, heldnumbers, i);
    put_hint_entry(hintprocessors, hintmoves, i, h);
    let none = cell_rules::order::no_offer();
    put_held_entry(heldprocessors, heldnumbers, i, none);
    let mut y = channel_entry(board, k);
    if y.granted < o.number && y.carried.number < o.number {
        y.carried = o;
        put_channel_entry(board, k, y);
    }
}

// The sender of channel c is at desk d: the pointer that travelled with it is taken if it is newer, and travels no more.
fn arrive_sending_at<'a>(
    hintprocessors: &'a mut [u8; 768],
    hintmoves: &'a mut [u16; 768],
    board: &'a mut Board,
    d: ProcessorId,
    c: ChannelId,
)
    requires { (AtCell d c) × Whole board.old }
    ensures { PointersBy (ruled_at ArriveSending d c)
        hintprocessors.old hintmoves.old board.old
        hintprocessors.new hintmoves.new board.new }
{
    let k = channel_index(c);
    let i = entry_beside(d, k);
    let h = travelling_entry(board, k);
    let none = cell_rules::order::unknown();
    put_travelling_entry(board, k, none);
    let own = hint_entry(hintprocessors, hintmoves, i);
    if own.moves < h.moves {
        put_hint_entry(hintprocessors, hintmoves, i, h);
    }
}

// The channels that task t receives on, at the desk that h names.
pub fn arrive_receiving<'a>(
    users: &'a [u8; 1024],
    hintprocessors: &'a mut [u8; 768],
    hintmoves: &'a mut [u16; 768],
    heldprocessors: &'a mut [u8; 768],
    heldnumbers: &'a mut [u8; 768],
    board: &'a mut Board,
    t: TaskId,
    h: Hint,
)
    requires { (t.0 ≤ 64) × (1 ≤ h.processor.0) × (h.processor.0 ≤ 6) × (Indexed users.now) × Whole board.old }
    ensures { OffersBy (for_ends (receivers_of users.now) t h.processor (ArriveReceiving h.processor h.moves))
        hintprocessors.old hintmoves.old heldprocessors.old heldnumbers.old board.old
        hintprocessors.new hintmoves.new heldprocessors.new heldnumbers.new board.new }
{
    let mut c = first_received(users, t);
    while 0 < c {
        arrive_receiving_at(
            hintprocessors,
            hintmoves,
            heldprocessors,
            heldnumbers,
            board,
            ChannelId(c),
            h,
        );
        c = next_received(users, c);
    }
}

// The channels that task t sends on, at desk d.
pub fn arrive_sending<'a>(
    users: &'a [u8; 1024],
    hintprocessors: &'a mut [u8; 768],
    hintmoves: &'a mut [u16; 768],
    board: &'a mut Board,
    t: TaskId,
    d: ProcessorId,
)
    requires { (t.0 ≤ 64) × (1 ≤ d.0) × (d.0 ≤ 6) × (Indexed users.now) × Whole board.old }
    ensures { PointersBy (for_ends (senders_of users.now) t d ArriveSending)
        hintprocessors.old hintmoves.old board.old
        hintprocessors.new hintmoves.new board.new }
{
    let mut c = first_sent(users, t);
    while 0 < c {
        arrive_sending_at(hintprocessors, hintmoves, board, d, ChannelId(c));
        c = next_sent(users, c);
    }
}
