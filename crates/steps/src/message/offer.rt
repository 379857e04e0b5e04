// An offer sees pointer, held offer and channel; it changes the held offer and the channel.
ghost use Rattle.std.specs.Prelude.{List, ℕ};
ghost use Rattle.channel_rules.specs.offers.Offers.{on_offer};
ghost use Rattle.board.specs.Lent.{lent};
ghost use Rattle.board.specs.Rigs.{Opened, Opening};
ghost use Rattle.steps.specs.message.ChannelMessages.{OfferOpens};
ghost use Rattle.steps.specs.message.Seen.{offer_sees, Found};

use crate::message::site;
use board::Board;
use board::act::{Act, accepted, posted};
use plan::ProcessorId;
use rules::message::Message;
use rules::rule::{Outcome, Posting};

// What an offer leaves; nothing is stored.
fn offer_outcome<'a>(
    codes: &'a [u32; 4096],
    users: &'a [u8; 1024],
    hintprocessors: &'a [u8; 768],
    hintmoves: &'a [u16; 768],
    heldprocessors: &'a [u8; 768],
    heldnumbers: &'a [u8; 768],
    board: &'a Board,
    m: Message,
) -> Outcome
    requires { OfferOpens codes.now users.now hintprocessors.now hintmoves.now heldprocessors.now heldnumbers.now board.now m }
    ensures { (notes : List ℕ) → Found on_offer offer_sees codes.now users.now m
        (lent hintprocessors.now hintmoves.now heldprocessors.now heldnumbers.now notes board.now) result }
{
    let Message::Offered(c, _, h) = m else {
        return site::unopened();
    };
    let d = h.processor;
    let hint = board::hint_at(hintprocessors, hintmoves, d, c);
    let held = board::held_at(heldprocessors, heldnumbers, d, c);
    let channel = board::channel_at(board, c);
    let cell = board::cell::cell_of(hint, held, ProcessorId(0), channel);
    let x = site::at_receiver(codes, users, board, c, cell);
    channel_rules::offers::offer(x, m)
}

// An offer is opened: the held offer and the channel are stored. Whatever the notes are, they stay.
pub fn offer<'a>(
    codes: &'a [u32; 4096],
    users: &'a [u8; 1024],
    hintprocessors: &'a [u8; 768],
    hintmoves: &'a [u16; 768],
    heldprocessors: &'a mut [u8; 768],
    heldnumbers: &'a mut [u8; 768],
    board: &'a mut Board,
    m: Message,
) -> Act
    requires { OfferOpens codes.now users.now hintprocessors.now hintmoves.now heldprocessors.old heldnumbers.old board.old m }
    ensures { (notes : List ℕ) → Opened codes.now users.now m
        (lent hintprocessors.now hintmoves.now heldprocessors.old heldnumbers.old notes board.old) result
        (lent hintprocessors.now hintmoves.now heldprocessors.new heldnumbers.new notes board.new) }
{
    let Message::Offered(c, _, h) = m else {
        return posted(Posting::Nothing);
    };
    let o = offer_outcome(
        codes,
        users,
        hintprocessors,
        hintmoves,
        heldprocessors,
        heldnumbers,
        board,
        m,
    );
    let held = o.cell.entry.held;
    board::put_held(heldprocessors, heldnumbers, h.processor, c, held);
    board::put_channel(board, c, o.cell.channel);
    accepted(o)
}

// What opening an offer would do.
pub fn offer_decided<'a>(
    codes: &'a [u32; 4096],
    users: &'a [u8; 1024],
    hintprocessors: &'a [u8; 768],
    hintmoves: &'a [u16; 768],
    heldprocessors: &'a [u8; 768],
    heldnumbers: &'a [u8; 768],
    board: &'a Board,
    m: Message,
) -> Act
    requires { OfferOpens codes.now users.now hintprocessors.now hintmoves.now heldprocessors.now heldnumbers.now board.now m }
    ensures { (notes : List ℕ) → Opening codes.now users.now m
        (lent hintprocessors.now hintmoves.now heldprocessors.now heldnumbers.now notes board.now) result }
{
    let o = offer_outcome(
        codes,
        users,
        hintprocessors,
        hintmoves,
        heldprocessors,
        heldnumbers,
        board,
        m,
    );
    accepted(o)
}
