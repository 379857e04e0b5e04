// An advert sees and changes the note and the channel.
ghost use Rattle.std.specs.Prelude.{List, ℕ};
ghost use Rattle.channel_rules.specs.offers.Offers.{on_advert};
ghost use Rattle.board.specs.Lent.{lent};
ghost use Rattle.board.specs.Rigs.{Opened, Opening};
ghost use Rattle.steps.specs.message.ChannelMessages.{AdvertOpens};
ghost use Rattle.steps.specs.message.Seen.{advert_sees, Found};

use crate::message::site;
use board::Board;
use board::act::{Act, accepted, posted};
use rules::message::Message;
use rules::rule::{Outcome, Posting};

// What an advert leaves; nothing is stored.
fn advert_outcome<'a>(
    codes: &'a [u32; 4096],
    users: &'a [u8; 1024],
    notes: &'a [u8; 768],
    board: &'a Board,
    m: Message,
) -> Outcome
    requires { AdvertOpens codes.now users.now notes.now board.now m }
    ensures { (hintprocessors hintmoves heldprocessors heldnumbers : List ℕ) → Found on_advert advert_sees codes.now users.now m
        (lent hintprocessors hintmoves heldprocessors heldnumbers notes.now board.now) result }
{
    let Message::Advert(c, d, _) = m else {
        return site::unopened();
    };
    let noted = board::note_at(notes, d, c);
    let channel = board::channel_at(board, c);
    let unknown = cell_rules::order::unknown();
    let none = cell_rules::order::no_offer();
    let cell = board::cell::cell_of(unknown, none, noted, channel);
    let x = site::at_receiver(codes, users, board, c, cell);
    channel_rules::offers::advert(x, m)
}

// An advert is opened: the note and the channel are stored. Whatever the pointers and the held offers are, they stay.
pub fn advert<'a>(
    codes: &'a [u32; 4096],
    users: &'a [u8; 1024],
    notes: &'a mut [u8; 768],
    board: &'a mut Board,
    m: Message,
) -> Act
    requires { AdvertOpens codes.now users.now notes.old board.old m }
    ensures { (hintprocessors hintmoves heldprocessors heldnumbers : List ℕ) → Opened codes.now users.now m
        (lent hintprocessors hintmoves heldprocessors heldnumbers notes.old board.old) result
        (lent hintprocessors hintmoves heldprocessors heldnumbers notes.new board.new) }
{
    let Message::Advert(c, d, _) = m else {
        return posted(Posting::Nothing);
    };
    let o = advert_outcome(codes, users, notes, board, m);
    board::put_note(notes, d, c, o.cell.entry.noted);
    board::put_channel(board, c, o.cell.channel);
    accepted(o)
}

// What opening an advert would do.
pub fn advert_decided<'a>(
    codes: &'a [u32; 4096],
    users: &'a [u8; 1024],
    notes: &'a [u8; 768],
    board: &'a Board,
    m: Message,
) -> Act
    requires { AdvertOpens codes.now users.now notes.now board.now m }
    ensures { (hintprocessors hintmoves heldprocessors heldnumbers : List ℕ) → Opening codes.now users.now m
        (lent hintprocessors hintmoves heldprocessors heldnumbers notes.now board.now) result }
{
    let o = advert_outcome(codes, users, notes, board, m);
    accepted(o)
}
