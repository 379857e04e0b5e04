// A word letter sees and changes the receiver and the channel.
ghost use Rattle.std.specs.Prelude.{List, ℕ};
ghost use Rattle.channel_rules.specs.messages.Messages.{on_data};
ghost use Rattle.board.specs.Lent.{lent};
ghost use Rattle.board.specs.Rigs.{Opened, Opening};
ghost use Rattle.steps.specs.message.ChannelMessages.{WordOpens};
ghost use Rattle.steps.specs.message.Seen.{word_sees, Found};

use crate::message::site;
use board::Board;
use board::act::{Act, accepted, posted};
use plan::ProcessorId;
use rules::message::Message;
use rules::rule::{Outcome, Posting};

// What a word letter leaves; nothing is stored.
fn word_outcome<'a>(
    codes: &'a [u32; 4096],
    users: &'a [u8; 1024],
    board: &'a Board,
    m: Message,
) -> Outcome
    requires { WordOpens codes.now users.now board.now m }
    ensures { (hintprocessors hintmoves heldprocessors heldnumbers notes : List ℕ) → Found on_data word_sees codes.now users.now m
        (lent hintprocessors hintmoves heldprocessors heldnumbers notes board.now) result }
{
    let Message::Data(c, _, _) = m else {
        return site::unopened();
    };
    let channel = board::channel_at(board, c);
    let unknown = cell_rules::order::unknown();
    let none = cell_rules::order::no_offer();
    let cell = board::cell::cell_of(unknown, none, ProcessorId(0), channel);
    let x = site::at_receiver(codes, users, board, c, cell);
    channel_rules::messages::data(x, m)
}

// A word letter is opened: the receiver and the channel are stored. Whatever the tables are, they stay.
pub fn word<'a>(
    codes: &'a [u32; 4096],
    users: &'a [u8; 1024],
    board: &'a mut Board,
    m: Message,
) -> Act
    requires { WordOpens codes.now users.now board.old m }
    ensures { (hintprocessors hintmoves heldprocessors heldnumbers notes : List ℕ) → Opened codes.now users.now m
        (lent hintprocessors hintmoves heldprocessors heldnumbers notes board.old) result
        (lent hintprocessors hintmoves heldprocessors heldnumbers notes board.new) }
{
    let Message::Data(c, _, _) = m else {
        return posted(Posting::Nothing);
    };
    let o = word_outcome(codes, users, board, m);
    let u = plan_index::user_table::users::receiver(users, c);
    board::put_task(board, u, o.receiver);
    board::put_channel(board, c, o.cell.channel);
    accepted(o)
}

// What opening a word letter would do.
pub fn word_decided<'a>(
    codes: &'a [u32; 4096],
    users: &'a [u8; 1024],
    board: &'a Board,
    m: Message,
) -> Act
    requires { WordOpens codes.now users.now board.now m }
    ensures { (hintprocessors hintmoves heldprocessors heldnumbers notes : List ℕ) → Opening codes.now users.now m
        (lent hintprocessors hintmoves heldprocessors heldnumbers notes board.now) result }
{
    let o = word_outcome(codes, users, board, m);
    accepted(o)
}
