// A call sees and changes the sender and the pointer.
ghost use Rattle.std.specs.Prelude.{List, ℕ};
ghost use Rattle.channel_rules.specs.messages.Messages.{on_call};
ghost use Rattle.board.specs.Lent.{lent};
ghost use Rattle.board.specs.Rigs.{Opened, Opening};
ghost use Rattle.steps.specs.message.ChannelMessages.{CallOpens};
ghost use Rattle.steps.specs.message.Seen.{call_sees, Found};

use crate::message::site;
use board::Board;
use board::act::{Act, accepted, posted};
use rules::message::Message;
use rules::rule::{Outcome, Posting, Site};
use rules::task::TaskState;

// What a call leaves; nothing is stored.
fn call_outcome<'a>(
    codes: &'a [u32; 4096],
    users: &'a [u8; 1024],
    hintprocessors: &'a [u8; 768],
    hintmoves: &'a [u16; 768],
    board: &'a Board,
    m: Message,
) -> Outcome
    requires { CallOpens codes.now users.now hintprocessors.now hintmoves.now board.now m }
    ensures { (heldprocessors heldnumbers notes : List ℕ) → Found on_call call_sees codes.now users.now m
        (lent hintprocessors.now hintmoves.now heldprocessors heldnumbers notes board.now) result }
{
    let Message::ReadyToReceive(c, d, _) = m else {
        return site::unopened();
    };
    let u = plan_index::user_table::users::sender(users, c);
    let a = board::task_at(board, u);
    let sending = board::cell::is_on(codes, TaskState::Sending, u, c, a);
    let hint = board::hint_at(hintprocessors, hintmoves, d, c);
    let none = site::no_cell();
    let cell = cell_rules::fields::with_hint(none, hint);
    let nobody = board::fetch::no_task();
    let x = Site {
        sender: a,
        receiver: nobody,
        sending,
        receiving: false,
        cell,
    };
    channel_rules::messages::call(x, m)
}

// A call is opened: the sender and the pointer are stored. Whatever the held offers and the notes are, they stay.
pub fn call<'a>(
    codes: &'a [u32; 4096],
    users: &'a [u8; 1024],
    hintprocessors: &'a mut [u8; 768],
    hintmoves: &'a mut [u16; 768],
    board: &'a mut Board,
    m: Message,
) -> Act
    requires { CallOpens codes.now users.now hintprocessors.old hintmoves.old board.old m }
    ensures { (heldprocessors heldnumbers notes : List ℕ) → Opened codes.now users.now m
        (lent hintprocessors.old hintmoves.old heldprocessors heldnumbers notes board.old) result
        (lent hintprocessors.new hintmoves.new heldprocessors heldnumbers notes board.new) }
{
    let Message::ReadyToReceive(c, d, _) = m else {
        return posted(Posting::Nothing);
    };
    let o = call_outcome(codes, users, hintprocessors, hintmoves, board, m);
    let u = plan_index::user_table::users::sender(users, c);
    board::put_task(board, u, o.sender);
    board::put_hint(hintprocessors, hintmoves, d, c, o.cell.entry.hint);
    accepted(o)
}

// What opening a call would do.
pub fn call_decided<'a>(
    codes: &'a [u32; 4096],
    users: &'a [u8; 1024],
    hintprocessors: &'a [u8; 768],
    hintmoves: &'a [u16; 768],
    board: &'a Board,
    m: Message,
) -> Act
    requires { CallOpens codes.now users.now hintprocessors.now hintmoves.now board.now m }
    ensures { (heldprocessors heldnumbers notes : List ℕ) → Opening codes.now users.now m
        (lent hintprocessors.now hintmoves.now heldprocessors heldnumbers notes board.now) result }
{
    let o = call_outcome(codes, users, hintprocessors, hintmoves, board, m);
    accepted(o)
}
